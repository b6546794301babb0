ghost use Rattle.std.specs.Prelude.{◌≡◌, ◌==◌};
ghost use Rattle.boards.specs.Seats.{no_seat, number_of, seat};

use plan::route::Route;
use search::keyed::Keyed;

// A device of a board: its route, and the line of the cascade where that ends. Devices are numbered as the routes are.
#[derive(Clone, Copy, PartialEq, Eq, Debug)]
pub struct Device {
    pub route: Route,
    pub line: usize,
}

// A device is found by its line.
impl Keyed for Device {
    type Key = usize;

    ghost fit = { λ d line. d.line == line };

    fn fits(&self, key: &usize) -> bool {
        self.line == *key
    }
}

// What a table of devices holds where it has none.
impl Default for Device {
    ghost is_default = { λ d. seat d ≡ no_seat };

    fn default() -> Device {
        Device {
            route: Route::default(),
            line: 0,
        }
    }
}

// Why a call of a device is refused, in the order of testing.
#[derive(Clone, Copy, PartialEq, Eq, Debug)]
pub enum DeviceFault {
    // There is no route of this number.
    NoRoute,
    // A completion of a device that is not in service.
    NotInService,
}

// The number of a refusal: 24 or 30.
impl From<DeviceFault> for u8 {
    ghost from_gives = { λ fault number. number ≡ number_of fault };

    fn from(fault: DeviceFault) -> u8 {
        match fault {
            DeviceFault::NoRoute => 24,
            DeviceFault::NotInService => 30,
        }
    }
}
