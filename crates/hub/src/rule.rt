//! The rule of what is published: it begins with all that any seat knows.

use crate::issue::Issue;
use atomic_table::{Join, Split};
use crossbeam_utils::rule::{Outcome, Protocol};
use left_right::reader::Reader;
use left_right::writer::Writer;

/// What a seat knows: nothing yet, or what was published at a time. No value of it is made.
pub type Known = Option<Issue>;

pub struct Published;

impl Protocol<Issue, Known> for Published {
    ghost use Rattle.std.specs.Prelude.{None};
    ghost use Rattle.hub.specs.kept.Rules.{Keeps};

    ghost holds = { Keeps };

    ghost first = { None };
}

/// A step after which a seat knows what is published then: to publish, and to look.
pub struct Sees;

impl Outcome<Issue, Known> for Sees {
    ghost use Rattle.hub.specs.kept.Rules.{Saw};

    ghost then = { Saw };
}

/// A seat that knows nothing yet is told what another one knows.
pub struct Telling;

impl Split<Known> for Telling {
    ghost left = { λ known. known };

    ghost right = { λ known. known };
}

impl Join<Known> for Telling {
    ghost use Rattle.std.specs.Prelude.{None};
    ghost use Rattle.hub.specs.kept.Rules.{informed};

    ghost both = { informed };

    ghost spent = { None };
}

pub type IssueReader = Reader<Issue, Known, Published>;

pub type IssueWriter = Writer<Issue, Issue, Known, Published>;
