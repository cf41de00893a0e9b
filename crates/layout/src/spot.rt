// A place where a piece may begin, as a page and a unit of it, and how much was asked for the piece that is out there.
ghost use Rattle.layout.specs.Layout.{asked_at};
ghost use Rattle.std.specs.Prelude.{◌≡◌, slice_index, slice_set};

use crate::layout::{ASKED, page_at};
use grounds::page::Page;
use std::marker::Model;
use units::unit::Unit;
use words::{put, word};

// It has an `impl Model` of its own, since a struct that holds such structs and has none is moved where it is passed by value.
#[derive(Clone, Copy)]
pub struct Spot {
    pub page: Page,
    pub unit: Unit,
}

impl Model for Spot {
    ghost use Rattle.layout.specs.Places.{PageUnit};

    ghost Value = { PageUnit };

    ghost view = { λ x. record { page = x.page; unit = x.unit } };

    ghost inverse = { λ x. record { page = x.page; unit = x.unit } };
}

// How much was asked for is no `Field`, since a page has one for each of its units.
impl Spot {
    // Where it stands how much was asked for.
    pub fn asked_at(&self) -> usize
        ensures { result ≡ asked_at self.now.page self.now.unit }
    {
        page_at(self.page.number()) + ASKED + self.unit.number()
    }

    pub fn asked(&self, memory: &[u64]) -> u64
        ensures { result ≡ slice_index memory.now (asked_at self.now.page self.now.unit) }
    {
        word(memory, self.asked_at())
    }

    pub fn set_asked(&self, memory: &mut [u64], size: u64)
        ensures { memory.new ≡ slice_set memory.old (asked_at self.now.page self.now.unit) size }
    {
        put(memory, self.asked_at(), size);
    }
}
