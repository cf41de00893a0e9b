// Where the parts of memory begin that depend on how many pages there are and how many pieces rest.
ghost use Rattle.grounds.specs.Numbers.{most_pages};
ghost use Rattle.layout.specs.Layout.{groups, index_in, page_at, queue_in, units_at};
ghost use Rattle.std.specs.Prelude.{◌≡◌, ◌≤◌};

use crate::field::UnitField;
use crate::header::{HEADER, HIGH_AT, QUEUE_AT};
use grounds::numbers::REST_WORDS;
use grounds::page::Page;
use index::Index;
use ring::Ring;
use std::marker::Model;
use units::Units;

// How many words each page has, and where its parts begin among them.
const PAGE_STRIDE: usize = 271;

pub(crate) const ASKED: usize = 15;
// How many pages make a group.
const GROUP: usize = 64;

// How many pages there are, and how many pieces may rest.
#[derive(Clone, Copy)]
pub struct Layout {
    pub pages: usize,
    pub rests: usize,
}

impl Model for Layout {
    ghost use Rattle.std.specs.Prelude.{◌≤◌};
    ghost use Rattle.grounds.specs.Numbers.{most_pages, most_rests};
    ghost use Rattle.layout.specs.Sizes.{Sizes};

    ghost Value = { Sizes };

    ghost view = { λ x. record { pages = x.pages; rests = x.rests } };

    ghost invariant = { λ x. (x.pages ≤ most_pages) × (x.rests ≤ most_rests) };

    ghost inverse = { λ x. record { pages = x.pages; rests = x.rests } };
}

// Where the words of a page begin.
pub fn page_at(page: usize) -> usize
    requires { page ≤ most_pages }
    ensures { result ≡ page_at page }
{
    HEADER + PAGE_STRIDE * page
}

// Where the bits lie that a page has of its units.
pub fn units_at(page: Page, field: UnitField) -> Units
    ensures { result.at ≡ units_at page field }
{
    Units {
        at: page_at(page.number()) + field as usize,
    }
}

// How many groups so many pages are.
pub fn groups(pages: usize) -> usize
    ensures { result ≡ groups pages }
{
    pages.div_ceil(GROUP)
}

impl Layout {
    // How many words the slots of the queue take.
    fn slots(&self) -> usize
        ensures { result ≡ (queue_in self.now).«cap» }
    {
        REST_WORDS as usize * self.rests
    }

    pub fn queue(&self) -> Ring
        ensures { result ≡ queue_in self.now }
    {
        Ring {
            header: QUEUE_AT,
            slots: page_at(self.pages),
            cap: self.slots(),
        }
    }

    pub fn index(&self) -> Index
        ensures { result ≡ index_in self.now }
    {
        Index {
            high: HIGH_AT,
            low: page_at(self.pages) + self.slots(),
        }
    }
}
