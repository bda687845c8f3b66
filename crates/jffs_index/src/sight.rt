//! A beginning of an index's history that was seen: no more than its length is stored.
ghost use Rattle.std.specs.Prelude.{◌≡◌};

use crate::page::Page;
use crate::rule::{Opened, Reached};
use std::marker::Model;

/// A beginning of an index's history that was seen. No more than its length is stored.
#[derive(Drop)]
pub struct Sight {
    count: u64,
    seen: Reached,
    opening: Opened,
}

impl Model for Sight {
    ghost use Rattle.std.specs.Prelude.{◌≡◌, length};
    ghost use Rattle.jffs_index.specs.Sights.{Sighted, sighted, opened_tree};

    ghost Value = { Sighted };

    ghost view = { λ s. sighted s.seen.book s.seen.log (opened_tree s.opening.log) };

    ghost invariant = { λ s. s.count ≡ length s.seen.log };
}

impl Sight {
    ghost use Rattle.std.specs.Prelude.{MatchBool};
    ghost use Rattle.jffs_index.specs.Histories.{view_of, BeginsWith};
    ghost use Rattle.jffs_index.specs.Pages.{history_of};
    ghost use Rattle.jffs_index.specs.Sights.{sighted, opened_tree};

    pub(crate) fn of(page: &Page) -> Sight
        requires { page.now.view ≡ view_of (history_of page.now) }
        ensures { result ≡ sighted page.now.seen.book page.now.seen.log
            (opened_tree page.now.opening.log) }
    {
        Sight {
            count: page.view.answered(),
            seen: page.seen.again(),
            opening: page.opening.again(),
        }
    }

    // Whether it is as long as the other. Of two beginnings of one history the longer begins with
    // the shorter.
    pub(crate) fn covers(&self, other: &Sight) -> bool
        requires { self.now.index ≡ other.now.index }
        ensures { MatchBool result (BeginsWith self.now.history other.now.history)
            (BeginsWith other.now.history self.now.history) }
    {
        let mut both = self.seen.again();
        both.learn(&other.seen);
        other.count <= self.count
    }
}
