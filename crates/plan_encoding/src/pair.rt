//! Pairs of commands that contend.

ghost use Rattle.std.specs.Prelude.{◌≡◌, ◌<◌, ◌+◌, ◌^◌, All, length};
ghost use Rattle.clause_spec.specs.Variables.{Before};
ghost use Rattle.live_clause_spec.specs.Variables.{live_number};
ghost use Rattle.plan_encoding.specs.Families.{Follow};
ghost use Rattle.plan_encoding.specs.Encoders.{IsCommand, among};

use crate::encoder::Encoder;
use rail_base::plan::Command;

/// A contending pair, and the number of its variable: that the first is given before the second.
#[derive(Clone, Copy)]
pub struct Pair<'a> {
    pub encoder: Encoder<'a>,
    pub first: Command,
    pub second: Command,
    pub variable: u32,
    pub ghost first_known: { IsCommand encoder first },
    pub ghost second_known: { IsCommand encoder second },
    pub ghost number: { variable ≡ among encoder live_number (Before first second) },
}

/// A command and the commands that contend with it, and the number on which those of their variables follow.
#[derive(Clone, Copy)]
pub struct Contenders<'a> {
    pub encoder: Encoder<'a>,
    pub first: Command,
    pub rivals: &'a [Command],
    pub last: u32,
    pub ghost first_known: { IsCommand encoder first },
    pub ghost rivals_known: { All (IsCommand encoder) rivals.now },
    pub ghost room: { last + length rivals.now < 2 ^ 32 },
    pub ghost numbers: { Follow encoder first rivals.now last },
}
