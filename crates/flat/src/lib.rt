// Answers as plain numbers, as C takes them: an exported function can't return an enum, so each answer has a flat
// struct.
#![tactic(auto)]

ghost use Rattle.std.specs.Prelude.{◌≡◌};
ghost use Rattle.flat.specs.Flat.{flat_of, flat_reading, flat_writing, flat_verdict, flat_entry, flat_link};
ghost use Rattle.flat.specs.Flat.{flat_sentence, flat_reason};

use area::LinkLoad;
use jam::Jam;
use planner::Reply;
use table::{Refusal, Row};
use text::Header;

// The planner's answer as plain numbers: `number` is 0 for an acceptance and a refusal's own otherwise. A late table
// has `looks` too.
#[repr(C)]
#[derive(Clone, Copy)]
pub struct PlanAnswer {
    pub number: u16,
    pub row: u16,
    pub slot: u16,
    pub last: u16,
    pub sends: u32,
    pub sum: u32,
    pub looks: u32,
    pub mean: f64,
    pub share: f64,
}

// What reading a text comes to, as plain numbers: `number` is 0 for a text that was read and a refusal's own otherwise,
// and `line` is the wrong line of refusal 20.
#[repr(C)]
#[derive(Clone, Copy)]
pub struct ReadAnswer {
    pub number: u16,
    pub line: u16,
    pub nodes: u16,
    pub rows: u16,
}

// What writing a text comes to, as plain numbers: `number` is 0 for a text that was written and a refusal's own
// otherwise.
#[repr(C)]
#[derive(Clone, Copy)]
pub struct WriteAnswer {
    pub number: u16,
    pub length: usize,
}

// What opening a table, editing it or judging a catalogue comes to, as plain numbers: `number` is 0 where it was done
// and a refusal's own otherwise.
#[repr(C)]
#[derive(Clone, Copy)]
pub struct EditAnswer {
    pub number: u16,
    pub row: u16,
    pub slot: u16,
}

// A row that was asked for, as plain numbers: `number` is 0 where it is there and a refusal's own otherwise.
#[repr(C)]
#[derive(Clone, Copy)]
pub struct RowAnswer {
    pub number: u16,
    pub row: u16,
    pub slot: u16,
    pub src: u16,
    pub dst: u16,
    pub len: u16,
    pub due: u16,
}

// Why a table is late as plain numbers: `number` is 0 where the jam was looked for and a refusal's own otherwise; no
// cells where there is no jam.
#[repr(C)]
#[derive(Clone, Copy)]
pub struct ReasonAnswer {
    pub number: u16,
    pub row: u16,
    pub slot: u16,
    pub cells: u16,
    pub link: u16,
    pub before: u16,
}

// A link and its load as plain numbers.
#[repr(C)]
#[derive(Clone, Copy)]
pub struct LinkAnswer {
    pub link: u16,
    pub load: u16,
}

// What writing a sentence or a label comes to, as plain numbers: `number` is 0 where it was written and a refusal's own
// otherwise.
#[repr(C)]
#[derive(Clone, Copy)]
pub struct SentenceAnswer {
    pub number: u16,
    pub row: u16,
    pub slot: u16,
    pub length: usize,
}

// An answer and the looks that it took.
impl From<Reply> for PlanAnswer {
    ghost from_gives = { λ reply r. r ≡ flat_of reply.answer reply.looks };

    #[tactic(auto, unfolding(crate::specs::Flat::flat_of))]
    fn from(reply: Reply) -> PlanAnswer {
        let looks = reply.looks;
        match reply.answer {
            Ok(s) => PlanAnswer {
                number: 0,
                row: 0,
                slot: 0,
                last: s.last.0,
                sends: s.sends,
                sum: s.sum,
                looks,
                mean: s.mean,
                share: s.share,
            },
            Err(r) => PlanAnswer {
                number: r.number,
                row: r.row,
                slot: r.slot.0,
                last: 0,
                sends: 0,
                sum: 0,
                looks,
                mean: 0.0,
                share: 0.0,
            },
        }
    }
}

// Why a table is late.
impl From<Result<Option<Jam>, Refusal>> for ReasonAnswer {
    ghost from_gives = { λ a r. r ≡ flat_reason a };

    #[tactic(auto, unfolding(crate::specs::Flat::flat_reason))]
    fn from(a: Result<Option<Jam>, Refusal>) -> ReasonAnswer {
        match a {
            Ok(Some(jam)) => ReasonAnswer {
                number: 0,
                row: 0,
                slot: 0,
                cells: jam.cells,
                link: jam.link.0,
                before: jam.before.0,
            },
            Ok(None) => ReasonAnswer {
                number: 0,
                row: 0,
                slot: 0,
                cells: 0,
                link: 0,
                before: 0,
            },
            Err(why) => ReasonAnswer {
                number: why.number,
                row: why.row,
                slot: why.slot.0,
                cells: 0,
                link: 0,
                before: 0,
            },
        }
    }
}

// What reading comes to.
impl From<Result<Header, Refusal>> for ReadAnswer {
    ghost from_gives = { λ a r. r ≡ flat_reading a };

    #[tactic(auto, unfolding(crate::specs::Flat::flat_reading))]
    fn from(a: Result<Header, Refusal>) -> ReadAnswer {
        match a {
            Ok(h) => ReadAnswer {
                number: 0,
                line: 0,
                nodes: h.nodes,
                rows: h.rows,
            },
            Err(refusal) => ReadAnswer {
                number: refusal.number,
                line: refusal.row,
                nodes: 0,
                rows: 0,
            },
        }
    }
}

// What writing comes to.
impl From<Result<usize, Refusal>> for WriteAnswer {
    ghost from_gives = { λ a r. r ≡ flat_writing a };

    #[tactic(auto, unfolding(crate::specs::Flat::flat_writing))]
    fn from(a: Result<usize, Refusal>) -> WriteAnswer {
        match a {
            Ok(length) => WriteAnswer { number: 0, length },
            Err(refusal) => WriteAnswer {
                number: refusal.number,
                length: 0,
            },
        }
    }
}

// A verdict.
impl From<Result<(), Refusal>> for EditAnswer {
    ghost from_gives = { λ a r. r ≡ flat_verdict a };

    #[tactic(auto, unfolding(crate::specs::Flat::flat_verdict))]
    fn from(a: Result<(), Refusal>) -> EditAnswer {
        match a {
            Ok(()) => EditAnswer {
                number: 0,
                row: 0,
                slot: 0,
            },
            Err(refusal) => EditAnswer {
                number: refusal.number,
                row: refusal.row,
                slot: refusal.slot.0,
            },
        }
    }
}

// A row that was asked for.
impl From<Result<Row, Refusal>> for RowAnswer {
    ghost from_gives = { λ a r. r ≡ flat_entry a };

    #[tactic(auto, unfolding(crate::specs::Flat::flat_entry))]
    fn from(a: Result<Row, Refusal>) -> RowAnswer {
        match a {
            Ok(row) => RowAnswer {
                number: 0,
                row: 0,
                slot: 0,
                src: row.src,
                dst: row.dst,
                len: row.len,
                due: row.due,
            },
            Err(refusal) => RowAnswer {
                number: refusal.number,
                row: refusal.row,
                slot: refusal.slot.0,
                src: 0,
                dst: 0,
                len: 0,
                due: 0,
            },
        }
    }
}

// What writing a sentence or a label comes to.
impl From<Result<usize, Refusal>> for SentenceAnswer {
    ghost from_gives = { λ a r. r ≡ flat_sentence a };

    #[tactic(auto, unfolding(crate::specs::Flat::flat_sentence))]
    fn from(a: Result<usize, Refusal>) -> SentenceAnswer {
        match a {
            Ok(length) => SentenceAnswer {
                number: 0,
                row: 0,
                slot: 0,
                length,
            },
            Err(refusal) => SentenceAnswer {
                number: refusal.number,
                row: refusal.row,
                slot: refusal.slot.0,
                length: 0,
            },
        }
    }
}

// A link and its load.
impl From<LinkLoad> for LinkAnswer {
    ghost from_gives = { λ a r. r ≡ flat_link a };

    #[tactic(auto, unfolding(crate::specs::Flat::flat_link))]
    fn from(a: LinkLoad) -> LinkAnswer {
        let link = a.link;
        LinkAnswer {
            link: link.0,
            load: a.load,
        }
    }
}
