// Sums of words, by which two readers of one blob are compared.
use faults::report::Report;
use kinds::kind::Kind;
use line::row::{Row, Sense};
use plan::placed::{Controller, Parent, Spot};
use plan::route::Route;
use plan::tree_plan::Plan;
use tree::tree::Tree;

// A sum of words in their order.
#[derive(Drop)]
pub(crate) struct Sum {
    value: u64,
}

impl Sum {
    pub(crate) fn new() -> Sum {
        Sum { value: 1 }
    }

    pub(crate) fn value(&self) -> u64 {
        self.value
    }

    // One word more.
    pub(crate) fn add(&mut self, word: u64) {
        self.value = self.value.wrapping_mul(31).wrapping_add(word);
    }

    fn add_number(&mut self, number: usize) {
        self.add(number as u64);
    }

    // A number that there may be none of.
    fn add_option(&mut self, number: Option<usize>) {
        match number {
            Some(number) => {
                self.add(1);
                self.add_number(number);
            }
            None => self.add(0),
        }
    }

    fn add_sense(&mut self, sense: Sense) {
        self.add(match sense {
            Sense::Edge => 1,
            Sense::Following => 2,
            Sense::Gated => 3,
        });
    }

    // The fields of a row.
    pub(crate) fn add_row(&mut self, row: Row) {
        self.add_sense(row.sense);
        self.add(u64::from(row.level));
        self.add(u64::from(row.request));
        self.add(u64::from(row.service));
        self.add(u64::from(row.mask));
    }

    // The sum of a fault with both places.
    pub(crate) fn of_report(report: Report) -> u64 {
        let mut sum = Sum::new();
        sum.add(u64::from(report.layer));
        sum.add(u64::from(report.number));
        sum.add_number(report.node.0);
        sum.add_number(report.property.0);
        sum.value
    }

    fn add_spot(&mut self, spot: Spot) {
        self.add_number(spot.controller);
        self.add_number(spot.input);
    }

    fn add_kind(&mut self, kind: &Kind<'_>) {
        self.add_number(kind.width());
        self.add(u64::from(kind.cells()));
        if let Kind::Plic(_, Some(priorities)) = kind {
            for priority in priorities.iter() {
                self.add(u64::from(priority));
            }
        }
    }

    fn add_controller(&mut self, controller: &Controller<'_>) {
        self.add_number(controller.node.0);
        self.add_kind(&controller.kind);
        match controller.parent {
            Parent::Root => self.add(0),
            Parent::At(spot) => {
                self.add(1);
                self.add_spot(spot);
            }
            Parent::Several => self.add(2),
        }
        self.add_option(controller.first_line);
    }

    fn add_route(&mut self, route: &Route, line: Option<usize>) {
        self.add_number(route.device.0);
        self.add_number(route.index);
        for hop in route.hops.as_slice() {
            self.add_number(hop.nexus.0);
            self.add_number(hop.row);
        }
        self.add_spot(route.spot);
        self.add_sense(route.sense);
        self.add_option(line);
    }
}

// The places and depths of all nodes and the places of all properties, of their names and of their values.
pub(crate) fn tree_sum(tree: &Tree<'_>) -> u64 {
    let mut sum = Sum::new();
    for node in tree.nodes() {
        let Ok(node) = node else {
            return 0;
        };
        sum.add_number(node.place.0);
        sum.add_number(node.body.depth);
        for property in tree.properties(&node) {
            let Ok(property) = property else {
                return 0;
            };
            sum.add_number(property.place.0);
            sum.add_number(property.name.place.0);
            sum.add_number(property.name.bytes().len());
            sum.add_number(property.value.bytes.len());
        }
    }
    sum.value
}

// The controllers, the order and the routes of a plan.
pub(crate) fn plan_sum(plan: &Plan<'_>) -> u64 {
    let mut sum = Sum::new();
    for controller in plan.controllers() {
        sum.add_controller(controller);
    }
    for number in plan.order() {
        sum.add_number(*number);
    }
    for route in plan.routes() {
        sum.add_route(route, plan.line(route.spot));
    }
    sum.value
}
