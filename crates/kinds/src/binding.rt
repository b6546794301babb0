ghost use Rattle.std.specs.Prelude.{◌≡◌};
ghost use Rattle.kinds.specs.Bindings.{binding_in, named};

// What a string of `compatible` names.
#[derive(Clone, Copy, PartialEq, Eq, Debug)]
pub enum Binding {
    // `intel,i8259`
    I8259,
    // `sifive,plic-1.0.0`
    Plic,
    // `factory,status-mux`
    StatusMux,
}

impl Binding {
    // The binding of this name.
    pub fn named(name: &[u8]) -> Option<Binding>
        ensures { result ≡ named name.now }
    {
        if name == b"intel,i8259".as_slice() {
            Some(Binding::I8259)
        } else if name == b"sifive,plic-1.0.0".as_slice() {
            Some(Binding::Plic)
        } else if name == b"factory,status-mux".as_slice() {
            Some(Binding::StatusMux)
        } else {
            None
        }
    }

    // What the first of some strings names that names anything; a zero byte ends each string.
    pub fn in_strings(strings: &[u8]) -> Option<Binding>
        ensures { result ≡ binding_in strings.now }
    {
        let parts = strings.split(|b| *b == 0);
        parts.filter_map(|name| Binding::named(name)).next()
    }
}
