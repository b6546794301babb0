ghost use Rattle.std.specs.Prelude.{◌≡◌, ◌∷◌, ◌++◌, [], cond, get_or, length, List, Ok, Err, Some, nat_lt};
ghost use Rattle.history.specs.declared.call.Answer.TheVariants.{Named};
ghost use Rattle.history.specs.declared.call.Call.{Call as Called};
ghost use Rattle.history.specs.declared.call.Call.TheVariants.{Claim, Complete, Drive, Mask};
ghost use Rattle.controller.specs.declared.call.Change.TheVariants.{Complete as Completed, Drive as Driven, Mask as Masked};
ghost use Rattle.history.specs.declared.call.Event.{Event as Happened};
ghost use Rattle.history.specs.Law.{answered};
ghost use Rattle.controller.specs.Calls.{outcome};
ghost use Rattle.controller.specs.Meaning.{all_reset};
ghost use Rattle.boards.specs.declared.device.DeviceFault.TheVariants.{NoRoute};
ghost use Rattle.boards.specs.Seats.{no_seat, line_at, seat, seats};
ghost use Rattle.boards.specs.Devices.{Led, Opened, Ran, Turns, answer_of, called, calls_in, device_refusal, device_row, done_or, offered, record_seen, seat_seen, senses_set};

use crate::device::{Device, DeviceFault};
use arrayvec::ArrayVec;
use controller::call::Change;
use controller::interface::Controller;
use history::call::{Answer, Call, Event};
use line::record::Line;
use search::keyed::first_match;

// The devices of a board, over one controller of any make.
#[derive(Drop)]
pub(crate) struct Devices<C> {
    pub(crate) controller: C,
    pub(crate) devices: ArrayVec<Device, 256>,
}

impl<C: Controller> Devices<C> {
    // The devices over a controller that was reset, each with its sense set.
    pub(crate) fn new(mut controller: C, devices: ArrayVec<Device, 256>) -> Devices<C>
        requires sound { C.sound controller }
        requires rests { (C.meaning controller).lines ≡ all_reset (C.meaning controller).lines }
        requires opened { Opened (C.meaning controller).lines (seats devices) }
        ensures led { Led C.Controller result.controller (seats result.devices) [] }
        ensures devices { result.devices ≡ devices }
        ensures lines { (C.meaning result.controller).lines ≡ senses_set (seats devices) (C.meaning controller).lines }
    {
        for device in devices.as_slice() {
            // An open line that is not in service takes any sense.
            let _ = controller.set_sense(device.line, device.route.sense);
        }
        Devices {
            controller,
            devices,
        }
    }

    // How many devices there are.
    pub(crate) fn count(&self) -> usize
        ensures { result ≡ length (seats self.now.devices) }
    {
        self.devices.len()
    }

    // The device of this number; 24.
    pub(crate) fn device(&self, i: usize) -> Result<Device, DeviceFault>
        ensures { seat_seen result ≡ cond (nat_lt i (length (seats self.now.devices))) (Ok (get_or (seats self.now.devices) i no_seat)) (Err NoRoute) }
    {
        self.devices
            .as_slice()
            .get(i)
            .copied()
            .ok_or(DeviceFault::NoRoute)
    }

    // The device of the offered line.
    pub(crate) fn offer(&self) -> Option<usize>
        ensures { C.sound self.now.controller → result ≡ offered (seats self.now.devices) (C.meaning self.now.controller).offer }
    {
        let line = self.controller.offer()?;
        first_match(self.devices.as_slice(), &line)
    }

    // The record of a device; 24.
    pub(crate) fn record(&self, i: usize) -> Result<Line, DeviceFault>
        ensures { (h : List Happened) → Led C.Controller self.now.controller (seats self.now.devices) h
            → record_seen result ≡ cond (nat_lt i (length (seats self.now.devices))) (Ok (device_row (C.meaning self.now.controller).lines (seats self.now.devices) i)) (Err NoRoute) }
    {
        let device = self.device(i)?;
        // The line of a device is open.
        self.controller
            .record(device.line)
            .map_err(|_| DeviceFault::NoRoute)
    }

    // A change of a device's line that is a call: 24, then 30 for a completion. Refused, it changes nothing.
    fn change(&mut self, i: usize, change: Change) -> Result<(), DeviceFault>
        ensures devices { self.new.devices ≡ self.old.devices }
        ensures is { (call : Called) (h : List Happened) → called change i ≡ Some call → Led C.Controller self.old.controller (seats self.old.devices) h
            → result ≡ outcome (device_refusal change (C.meaning self.old.controller).lines (seats self.old.devices) i) }
        ensures steps { (call : Called) (h : List Happened) → called change i ≡ Some call → Led C.Controller self.old.controller (seats self.old.devices) h
            → Turns (seats self.old.devices) call (C.meaning self.old.controller) (C.meaning self.new.controller) }
        ensures led { (call : Called) (h : List Happened) → called change i ≡ Some call → Led C.Controller self.old.controller (seats self.old.devices) h
            → Led C.Controller self.new.controller (seats self.new.devices) (h ++ (answered call (done_or result) ∷ [])) }
    {
        let device = self.device(i)?;
        // The line of a device is open, so it refuses a completion only.
        self.controller
            .change(device.line, change)
            .map_err(|_| DeviceFault::NotInService)
    }

    // Drives a device high or low; 24.
    pub(crate) fn drive(&mut self, i: usize, high: bool) -> Result<(), DeviceFault>
        ensures devices { self.new.devices ≡ self.old.devices }
        ensures is { (h : List Happened) → Led C.Controller self.old.controller (seats self.old.devices) h
            → result ≡ outcome (device_refusal (Driven high) (C.meaning self.old.controller).lines (seats self.old.devices) i) }
        ensures steps { (h : List Happened) → Led C.Controller self.old.controller (seats self.old.devices) h
            → Turns (seats self.old.devices) (Drive i high) (C.meaning self.old.controller) (C.meaning self.new.controller) }
        ensures led { (h : List Happened) → Led C.Controller self.old.controller (seats self.old.devices) h
            → Led C.Controller self.new.controller (seats self.new.devices) (h ++ (answered (Drive i high) (done_or result) ∷ [])) }
    {
        self.change(i, Change::Drive(high))
    }

    // Masks or unmasks a device; 24.
    pub(crate) fn set_mask(&mut self, i: usize, on: bool) -> Result<(), DeviceFault>
        ensures devices { self.new.devices ≡ self.old.devices }
        ensures is { (h : List Happened) → Led C.Controller self.old.controller (seats self.old.devices) h
            → result ≡ outcome (device_refusal (Masked on) (C.meaning self.old.controller).lines (seats self.old.devices) i) }
        ensures steps { (h : List Happened) → Led C.Controller self.old.controller (seats self.old.devices) h
            → Turns (seats self.old.devices) (Mask i on) (C.meaning self.old.controller) (C.meaning self.new.controller) }
        ensures led { (h : List Happened) → Led C.Controller self.old.controller (seats self.old.devices) h
            → Led C.Controller self.new.controller (seats self.new.devices) (h ++ (answered (Mask i on) (done_or result) ∷ [])) }
    {
        self.change(i, Change::Mask(on))
    }

    // Completes a device that is in service; 24, 30.
    pub(crate) fn complete(&mut self, i: usize) -> Result<(), DeviceFault>
        ensures devices { self.new.devices ≡ self.old.devices }
        ensures is { (h : List Happened) → Led C.Controller self.old.controller (seats self.old.devices) h
            → result ≡ outcome (device_refusal Completed (C.meaning self.old.controller).lines (seats self.old.devices) i) }
        ensures steps { (h : List Happened) → Led C.Controller self.old.controller (seats self.old.devices) h
            → Turns (seats self.old.devices) (Complete i) (C.meaning self.old.controller) (C.meaning self.new.controller) }
        ensures led { (h : List Happened) → Led C.Controller self.old.controller (seats self.old.devices) h
            → Led C.Controller self.new.controller (seats self.new.devices) (h ++ (answered (Complete i) (done_or result) ∷ [])) }
    {
        self.change(i, Change::Complete)
    }

    // Names the device of the offered line and puts it in service; without an offer it names none and changes nothing.
    pub(crate) fn claim(&mut self) -> Option<usize>
        ensures devices { self.new.devices ≡ self.old.devices }
        ensures names { C.sound self.old.controller → result ≡ offered (seats self.old.devices) (C.meaning self.old.controller).offer }
        ensures steps { C.sound self.old.controller → Turns (seats self.old.devices) Claim (C.meaning self.old.controller) (C.meaning self.new.controller) }
        ensures led { (h : List Happened) → Led C.Controller self.old.controller (seats self.old.devices) h
            → Led C.Controller self.new.controller (seats self.new.devices) (h ++ (answered Claim (Named result) ∷ [])) }
    {
        let line = self.controller.claim()?;
        first_match(self.devices.as_slice(), &line)
    }

    // Resets every line; the senses stay.
    pub(crate) fn reset(&mut self)
        ensures devices { self.new.devices ≡ self.old.devices }
        ensures resets { C.sound self.old.controller → (C.meaning self.new.controller).lines ≡ all_reset (C.meaning self.old.controller).lines }
        ensures led { (h : List Happened) → Led C.Controller self.old.controller (seats self.old.devices) h
            → Led C.Controller self.new.controller (seats self.new.devices) [] }
    {
        self.controller.reset();
    }

    // Makes a call and answers it.
    pub(crate) fn call(&mut self, call: Call) -> Answer
        ensures devices { self.new.devices ≡ self.old.devices }
        ensures is { (h : List Happened) → Led C.Controller self.old.controller (seats self.old.devices) h
            → result ≡ answer_of (C.meaning self.old.controller) (seats self.old.devices) call }
        ensures steps { (h : List Happened) → Led C.Controller self.old.controller (seats self.old.devices) h
            → Turns (seats self.old.devices) call (C.meaning self.old.controller) (C.meaning self.new.controller) }
        ensures led { (h : List Happened) → Led C.Controller self.old.controller (seats self.old.devices) h
            → Led C.Controller self.new.controller (seats self.new.devices) (h ++ (answered call result ∷ [])) }
    {
        let done = match call {
            Call::Drive(i, high) => self.drive(i, high),
            Call::Mask(i, on) => self.set_mask(i, on),
            Call::Complete(i) => self.complete(i),
            Call::Claim => return Answer::Named(self.claim()),
        };
        match done {
            Ok(()) => Answer::Done,
            Err(fault) => Answer::Refused(fault.into()),
        }
    }

    // Makes the calls of a list in order, and writes each one's answer into its event.
    pub(crate) fn run(&mut self, events: &mut [Event])
        ensures devices { self.new.devices ≡ self.old.devices }
        ensures calls { calls_in events.new ≡ calls_in events.old }
        ensures ran { (h : List Happened) → Led C.Controller self.old.controller (seats self.old.devices) h
            → Ran (seats self.old.devices) (C.meaning self.old.controller) events.new (C.meaning self.new.controller) }
        ensures led { (h : List Happened) → Led C.Controller self.old.controller (seats self.old.devices) h
            → Led C.Controller self.new.controller (seats self.new.devices) (h ++ events.new) }
    {
        for event in events.iter_mut() {
            event.answer = self.call(event.call);
        }
    }
}
