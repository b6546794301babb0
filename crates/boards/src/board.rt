ghost use Rattle.std.specs.Prelude.{◌≡◌, ◌<◌, ◌∷◌, ◌++◌, [], cond, get_or, length, List, Ok, Err, nat_lt};
ghost use Rattle.tree.specs.Reads.{nodes_of};
ghost use Rattle.history.specs.declared.call.Answer.TheVariants.{Named};
ghost use Rattle.history.specs.declared.call.Call.TheVariants.{Claim, Complete, Drive, Mask};
ghost use Rattle.history.specs.declared.call.Event.{Event as Happened};
ghost use Rattle.history.specs.Law.{answered};
ghost use Rattle.history.specs.Own.{stands};
ghost use Rattle.controller.specs.declared.call.Change.TheVariants.{Complete as Completed, Drive as Driven, Mask as Masked};
ghost use Rattle.controller.specs.Calls.{outcome};
ghost use Rattle.controller.specs.Meaning.{all_reset};
ghost use Rattle.boards.specs.declared.device.DeviceFault.TheVariants.{NoRoute};
ghost use Rattle.boards.specs.Boards.{Assembled, BoardLed, devices_in, meaning_in, record_in};
ghost use Rattle.boards.specs.Devices.{Ran, Turns, answer_of, calls_in, device_refusal, done_or, offered, record_seen, seat_seen};
ghost use Rattle.boards.specs.Seats.{no_seat, sense_at};

use crate::device::{Device, DeviceFault};
use crate::devices::Devices;
use crate::parts::{Four, Parts, drawn};
use controller::interface::Controller;
use history::call::{Answer, Call, Event};
use line::record::Line;
use tree::tree::Tree;

// A board: the routes of a tree's plan, over four controllers of any make that are cascaded as the plan says. Calls name a device by the
// number of its route. The routes and their senses never change. Lines without a route stay masked, and are never in service.
#[derive(Drop)]
pub struct Board<A, B, C, D> {
    pub(crate) devices: Devices<Four<A, B, C, D>>,
}

impl<A: Controller, B: Controller, C: Controller, D: Controller> Board<A, B, C, D> {
    // The board of a tree, over these four; where the question has a refusal, a board without routes. Either way it is reset.
    pub fn assemble(tree: &Tree<'_>, mut parts: Parts<A, B, C, D>) -> Board<A, B, C, D>
        ensures { Assembled A.Controller B.Controller C.Controller D.Controller ⟦<Four<A, B, C, D> as Controller>⟧ (nodes_of tree.now) parts result }
    {
        parts.reset();
        let (wiring, devices) = drawn(&parts.plan(tree));
        Board {
            devices: Devices::new(parts.cascaded(wiring), devices),
        }
    }

    // How many routes there are.
    pub fn count(&self) -> usize
        ensures { result ≡ length (devices_in self.now) }
    {
        self.devices.count()
    }

    // A route, with its line; 24.
    pub fn device(&self, route: usize) -> Result<Device, DeviceFault>
        ensures { seat_seen result ≡ cond (nat_lt route (length (devices_in self.now))) (Ok (get_or (devices_in self.now) route no_seat)) (Err NoRoute) }
    {
        self.devices.device(route)
    }

    // The device that a claim would name: that of the line which the cascade offers.
    pub fn offer(&self) -> Option<usize>
        ensures { (h : List Happened) → BoardLed ⟦<Four<A, B, C, D> as Controller>⟧ self.now h
            → result ≡ offered (devices_in self.now) (meaning_in ⟦<Four<A, B, C, D> as Controller>⟧ self.now).offer }
    {
        self.devices.offer()
    }

    // The record of a device, which is how it stands after the board's history; 24.
    pub fn record(&self, route: usize) -> Result<Line, DeviceFault>
        ensures is { (h : List Happened) → BoardLed ⟦<Four<A, B, C, D> as Controller>⟧ self.now h
            → record_seen result ≡ cond (nat_lt route (length (devices_in self.now))) (Ok (record_in ⟦<Four<A, B, C, D> as Controller>⟧ self.now route)) (Err NoRoute) }
        ensures stands { (h : List Happened) → BoardLed ⟦<Four<A, B, C, D> as Controller>⟧ self.now h
            → route < length (devices_in self.now) → record_seen result ≡ Ok (stands (sense_at (devices_in self.now) route) route h) }
    {
        self.devices.record(route)
    }

    // Drives a device high or low; 24.
    pub fn drive(&mut self, route: usize, high: bool) -> Result<(), DeviceFault>
        ensures devices { devices_in self.new ≡ devices_in self.old }
        ensures is { (h : List Happened) → BoardLed ⟦<Four<A, B, C, D> as Controller>⟧ self.old h
            → result ≡ outcome (device_refusal (Driven high) (meaning_in ⟦<Four<A, B, C, D> as Controller>⟧ self.old).lines (devices_in self.old) route) }
        ensures steps { (h : List Happened) → BoardLed ⟦<Four<A, B, C, D> as Controller>⟧ self.old h
            → Turns (devices_in self.old) (Drive route high) (meaning_in ⟦<Four<A, B, C, D> as Controller>⟧ self.old) (meaning_in ⟦<Four<A, B, C, D> as Controller>⟧ self.new) }
        ensures led { (h : List Happened) → BoardLed ⟦<Four<A, B, C, D> as Controller>⟧ self.old h
            → BoardLed ⟦<Four<A, B, C, D> as Controller>⟧ self.new (h ++ (answered (Drive route high) (done_or result) ∷ [])) }
    {
        self.devices.drive(route, high)
    }

    // Masks or unmasks a device; 24.
    pub fn set_mask(&mut self, route: usize, on: bool) -> Result<(), DeviceFault>
        ensures devices { devices_in self.new ≡ devices_in self.old }
        ensures is { (h : List Happened) → BoardLed ⟦<Four<A, B, C, D> as Controller>⟧ self.old h
            → result ≡ outcome (device_refusal (Masked on) (meaning_in ⟦<Four<A, B, C, D> as Controller>⟧ self.old).lines (devices_in self.old) route) }
        ensures steps { (h : List Happened) → BoardLed ⟦<Four<A, B, C, D> as Controller>⟧ self.old h
            → Turns (devices_in self.old) (Mask route on) (meaning_in ⟦<Four<A, B, C, D> as Controller>⟧ self.old) (meaning_in ⟦<Four<A, B, C, D> as Controller>⟧ self.new) }
        ensures led { (h : List Happened) → BoardLed ⟦<Four<A, B, C, D> as Controller>⟧ self.old h
            → BoardLed ⟦<Four<A, B, C, D> as Controller>⟧ self.new (h ++ (answered (Mask route on) (done_or result) ∷ [])) }
    {
        self.devices.set_mask(route, on)
    }

    // Completes a device that is in service; 24, 30.
    pub fn complete(&mut self, route: usize) -> Result<(), DeviceFault>
        ensures devices { devices_in self.new ≡ devices_in self.old }
        ensures is { (h : List Happened) → BoardLed ⟦<Four<A, B, C, D> as Controller>⟧ self.old h
            → result ≡ outcome (device_refusal Completed (meaning_in ⟦<Four<A, B, C, D> as Controller>⟧ self.old).lines (devices_in self.old) route) }
        ensures steps { (h : List Happened) → BoardLed ⟦<Four<A, B, C, D> as Controller>⟧ self.old h
            → Turns (devices_in self.old) (Complete route) (meaning_in ⟦<Four<A, B, C, D> as Controller>⟧ self.old) (meaning_in ⟦<Four<A, B, C, D> as Controller>⟧ self.new) }
        ensures led { (h : List Happened) → BoardLed ⟦<Four<A, B, C, D> as Controller>⟧ self.old h
            → BoardLed ⟦<Four<A, B, C, D> as Controller>⟧ self.new (h ++ (answered (Complete route) (done_or result) ∷ [])) }
    {
        self.devices.complete(route)
    }

    // Names the device of the line that the cascade offers and puts it in service; without an offer it names none and changes nothing.
    pub fn claim(&mut self) -> Option<usize>
        ensures devices { devices_in self.new ≡ devices_in self.old }
        ensures names { (h : List Happened) → BoardLed ⟦<Four<A, B, C, D> as Controller>⟧ self.old h
            → result ≡ offered (devices_in self.old) (meaning_in ⟦<Four<A, B, C, D> as Controller>⟧ self.old).offer }
        ensures steps { (h : List Happened) → BoardLed ⟦<Four<A, B, C, D> as Controller>⟧ self.old h
            → Turns (devices_in self.old) Claim (meaning_in ⟦<Four<A, B, C, D> as Controller>⟧ self.old) (meaning_in ⟦<Four<A, B, C, D> as Controller>⟧ self.new) }
        ensures led { (h : List Happened) → BoardLed ⟦<Four<A, B, C, D> as Controller>⟧ self.old h
            → BoardLed ⟦<Four<A, B, C, D> as Controller>⟧ self.new (h ++ (answered Claim (Named result) ∷ [])) }
    {
        self.devices.claim()
    }

    // Makes the board clean: every device is as a reset leaves it, with its sense.
    pub fn reset(&mut self)
        ensures devices { devices_in self.new ≡ devices_in self.old }
        ensures resets { (h : List Happened) → BoardLed ⟦<Four<A, B, C, D> as Controller>⟧ self.old h
            → (meaning_in ⟦<Four<A, B, C, D> as Controller>⟧ self.new).lines ≡ all_reset (meaning_in ⟦<Four<A, B, C, D> as Controller>⟧ self.old).lines }
        ensures led { (h : List Happened) → BoardLed ⟦<Four<A, B, C, D> as Controller>⟧ self.old h
            → BoardLed ⟦<Four<A, B, C, D> as Controller>⟧ self.new [] }
    {
        self.devices.reset();
    }

    // Makes a call and answers it.
    pub fn call(&mut self, call: Call) -> Answer
        ensures devices { devices_in self.new ≡ devices_in self.old }
        ensures is { (h : List Happened) → BoardLed ⟦<Four<A, B, C, D> as Controller>⟧ self.old h
            → result ≡ answer_of (meaning_in ⟦<Four<A, B, C, D> as Controller>⟧ self.old) (devices_in self.old) call }
        ensures steps { (h : List Happened) → BoardLed ⟦<Four<A, B, C, D> as Controller>⟧ self.old h
            → Turns (devices_in self.old) call (meaning_in ⟦<Four<A, B, C, D> as Controller>⟧ self.old) (meaning_in ⟦<Four<A, B, C, D> as Controller>⟧ self.new) }
        ensures led { (h : List Happened) → BoardLed ⟦<Four<A, B, C, D> as Controller>⟧ self.old h
            → BoardLed ⟦<Four<A, B, C, D> as Controller>⟧ self.new (h ++ (answered call result ∷ [])) }
    {
        self.devices.call(call)
    }

    // Makes the calls of a list in order, and writes each one's answer into its event. The calls stay as they were.
    pub fn run(&mut self, events: &mut [Event])
        ensures devices { devices_in self.new ≡ devices_in self.old }
        ensures calls { calls_in events.new ≡ calls_in events.old }
        ensures ran { (h : List Happened) → BoardLed ⟦<Four<A, B, C, D> as Controller>⟧ self.old h
            → Ran (devices_in self.old) (meaning_in ⟦<Four<A, B, C, D> as Controller>⟧ self.old) events.new (meaning_in ⟦<Four<A, B, C, D> as Controller>⟧ self.new) }
        ensures led { (h : List Happened) → BoardLed ⟦<Four<A, B, C, D> as Controller>⟧ self.old h
            → BoardLed ⟦<Four<A, B, C, D> as Controller>⟧ self.new (h ++ events.new) }
    {
        self.devices.run(events);
    }
}
