// Switches, wires, far ends and refusals as text. What each `{}` writes is a definition of specs/Text.antt.
ghost use Rattle.std.specs.Prelude.{Some};
ghost use Rattle.crossbar.specs.Refusals.{refusal};
ghost use Rattle.crossbar.specs.Text.{switch_text, wire_text, end_text, hop_text, refusal_text};

use crate::digits::TwoDigits;
use crate::refusal::RouteRefusal;
use crate::wires::{FarEnd, Hop, Switch, Wire};
use std::fmt;

impl fmt::Display for Switch {
    ghost output = { λ s. Some (switch_text s) };

    fn fmt<W: fmt::Write>(&self, f: &mut fmt::Formatter<W>) -> fmt::Result {
        match self {
            Switch::Line(w) => write!(f, "line {w}"),
            Switch::Send(w) => write!(f, "send {w}"),
            Switch::Spine(j) => write!(f, "spine {j}"),
            Switch::Receive(w) => write!(f, "receive {w}"),
        }
    }
}

// A wire by where it begins.
impl fmt::Display for Wire {
    ghost output = { λ w. Some (wire_text w) };

    fn fmt<W: fmt::Write>(&self, f: &mut fmt::Formatter<W>) -> fmt::Result {
        match self {
            Wire::FromNode(v) => write!(f, "node {v}"),
            Wire::FromExit(s, x) => write!(f, "{s} exit {x}"),
        }
    }
}

impl fmt::Display for FarEnd {
    ghost output = { λ e. Some (end_text e) };

    fn fmt<W: fmt::Write>(&self, f: &mut fmt::Formatter<W>) -> fmt::Result {
        match self {
            FarEnd::Node(v) => write!(f, "node {v}"),
            FarEnd::Entry(s, p) => write!(f, "{s} entry {p}"),
        }
    }
}

// A wire by both its ends.
impl fmt::Display for Hop {
    ghost output = { λ h. Some (hop_text h) };

    fn fmt<W: fmt::Write>(&self, f: &mut fmt::Formatter<W>) -> fmt::Result {
        write!(f, "{} -> {}", self.wire, self.end)
    }
}

// The number in two digits, and the node where there is one.
impl fmt::Display for RouteRefusal {
    ghost output = { λ e. Some (refusal_text (refusal e)) };

    fn fmt<W: fmt::Write>(&self, f: &mut fmt::Formatter<W>) -> fmt::Result {
        let number = TwoDigits(self.number());
        match self.node() {
            Some(v) => write!(f, "refused {number} node {v}"),
            None => write!(f, "refused {number}"),
        }
    }
}
