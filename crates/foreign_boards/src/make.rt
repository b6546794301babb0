// What a part is called in the text.
use any_controller::any::AnyController;
use cascade::pair::Cascade;
use controller::interface::Controller;
use highest_first::chip::HighestFirst;
use i8259::chip::I8259;
use plic::chip::Plic;
use status_mux::mux::StatusMux;

// A controller of a known make.
pub trait Make: Controller {
    fn make(&self) -> &'static str;
}

impl Make for HighestFirst {
    fn make(&self) -> &'static str {
        "highest first"
    }
}

impl Make for I8259 {
    fn make(&self) -> &'static str {
        "8259A"
    }
}

impl Make for Plic {
    fn make(&self) -> &'static str {
        "PLIC"
    }
}

impl Make for StatusMux {
    fn make(&self) -> &'static str {
        "mux"
    }
}

impl Make for AnyController {
    fn make(&self) -> &'static str {
        match self {
            AnyController::I8259(chip) => chip.make(),
            AnyController::Plic(plic) => plic.make(),
            AnyController::StatusMux(mux) => mux.make(),
        }
    }
}

// Two that were cascaded before, and are one part.
impl<P: Controller, C: Controller> Make for Cascade<P, C> {
    fn make(&self) -> &'static str {
        "pair"
    }
}
