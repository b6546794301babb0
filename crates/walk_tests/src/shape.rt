// The leaves and joins that the head of a walk names.
use super::error::WalkError;
use super::record::Outcome;
use super::walk::Walk;
use any_controller::any::AnyController;
use cascade::pair::{Cascade, question};
use controller::interface::Controller;
use i8259::chip::FullyNested;
use line::row::Sense;
use plic::chip::ByPriority;
use plic::plic_width::PlicWidth;
use plic::priority::Priority;
use status_mux::mux::LowestFirst;
use status_mux::mux_width::MuxWidth;
use std::alloc::Global;

// A PLIC, from the priority of each line.
fn plic(heap: Global, digits: &str) -> Result<AnyController, WalkError> {
    let priorities: Vec<Priority> = digits
        .bytes()
        .map(|digit| Priority::new(usize::from(digit.wrapping_sub(b'0'))).ok_or(
            WalkError::UnknownWord,
        ))
        .try_collect(heap)?;
    let width = PlicWidth::new(priorities.len()).ok_or(WalkError::UnknownWord)?;
    Ok(AnyController::Plic(ByPriority::controller(width, priorities.as_slice())))
}

// A status mux, from its width.
fn mux(number: &str) -> Result<AnyController, WalkError> {
    let lines = number.parse::<usize>()?;
    let width = MuxWidth::new(lines).ok_or(WalkError::UnknownWord)?;
    Ok(AnyController::StatusMux(LowestFirst::controller(width)))
}

// Brings the lines into many states.
fn use_lines<C: Controller>(controller: &mut C) {
    for line in 0..controller.width() {
        let sense = match line % 3 {
            0 => Sense::Edge,
            1 => Sense::Following,
            _ => Sense::Gated,
        };
        let _ = controller.set_sense(line, sense);
        let _ = controller.set_mask(line, false);
        let _ = controller.drive(line, true);
    }
    let _ = controller.claim();
}

impl Walk<'_> {
    // The new controller that the next word names.
    pub fn leaf(&mut self) -> Result<AnyController, WalkError> {
        let word = self.next_word()?;
        match word.split_once(':') {
            Some(("plic", digits)) => plic(self.heap, digits),
            Some(("mux", number)) => mux(number),
            None if word == "8259" => Ok(AnyController::I8259(FullyNested::controller())),
            _ => Err(WalkError::UnknownWord),
        }
    }

    // Joins a child to the parent's line that the next word names; `*` before the line says that both are used first.
    pub fn join<P: Controller + Drop, C: Controller + Drop>(
        &mut self,
        mut parent: P,
        mut child: C,
    ) -> Result<Cascade<P, C>, WalkError> {
        let word = self.next_word()?;
        let number = match word.strip_prefix("*") {
            Some(number) => {
                use_lines(&mut parent);
                use_lines(&mut child);
                number
            }
            None => word,
        };
        let line = number.parse::<usize>()?;
        let outcome = question(&parent, &child, line).map_err(|fault| u8::from(fault));
        writeln!(self.written, "join {word}: {}", Outcome(outcome))?;
        Ok(Cascade::new(parent, child, line))
    }

    // Takes a leaf and joins it to a parent.
    pub fn under<P: Controller + Drop>(
        &mut self,
        parent: P,
    ) -> Result<Cascade<P, AnyController>, WalkError> {
        let child = self.leaf()?;
        self.join(parent, child)
    }
}
