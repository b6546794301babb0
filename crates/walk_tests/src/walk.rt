// One walk: the controller that its head names, and the calls. The words of a head come in the order in which they are taken:
// for a pair its parent, then its child, then their join.
use super::error::WalkError;
use std::alloc::Global;
use std::str::SplitWhitespace;

// A walk that is run.
#[derive(Drop)]
pub struct Walk<'a> {
    // The words of its head that are not taken yet.
    words: SplitWhitespace<'a>,
    pub calls: &'a str,
    pub heap: Global,
    // What it gave so far.
    pub written: String,
}

impl<'a> Walk<'a> {
    // The next word of the head.
    pub fn next_word(&mut self) -> Result<&'a str, WalkError> {
        self.words.next().ok_or(WalkError::UnknownWord)
    }

    // One to five leaves, each the child of all before it. Each pair has a type of its own, so each form has
    // its steps.
    fn left(&mut self, form: &str) -> Result<(), WalkError> {
        let one = self.leaf()?;
        if form == "left1" {
            return self.make_calls(one);
        }
        let two = self.under(one)?;
        if form == "left2" {
            return self.make_calls(two);
        }
        let three = self.under(two)?;
        if form == "left3" {
            return self.make_calls(three);
        }
        let four = self.under(three)?;
        if form == "left4" {
            return self.make_calls(four);
        }
        let five = self.under(four)?;
        self.make_calls(five)
    }

    // Three leaves, each the parent of all after it.
    fn right3(&mut self) -> Result<(), WalkError> {
        let top = self.leaf()?;
        let parent = self.leaf()?;
        let two = self.under(parent)?;
        let three = self.join(top, two)?;
        self.make_calls(three)
    }

    // Four leaves, each the parent of all after it.
    fn right4(&mut self) -> Result<(), WalkError> {
        let top = self.leaf()?;
        let next = self.leaf()?;
        let parent = self.leaf()?;
        let two = self.under(parent)?;
        let three = self.join(next, two)?;
        let four = self.join(top, three)?;
        self.make_calls(four)
    }

    // A pair cascaded into a pair.
    fn pairs(&mut self) -> Result<(), WalkError> {
        let first = self.leaf()?;
        let parent = self.under(first)?;
        let second = self.leaf()?;
        let child = self.under(second)?;
        let four = self.join(parent, child)?;
        self.make_calls(four)
    }
}

// Runs the walk of a text; what it gives.
pub fn run_walk(heap: Global, text: &str) -> Result<String, WalkError> {
    let (head, calls) = text.split_once('\n').ok_or(WalkError::UnknownWord)?;
    let mut walk = Walk {
        words: head.split_whitespace(),
        calls,
        heap,
        written: format!(in heap; "#{head}\n")?,
    };
    match walk.next_word()? {
        "right3" => walk.right3()?,
        "right4" => walk.right4()?,
        "pairs" => walk.pairs()?,
        form => walk.left(form)?,
    }
    Ok(walk.written)
}
