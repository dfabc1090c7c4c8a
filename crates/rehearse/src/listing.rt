//! The listing, entry by entry.

ghost use Rattle.std.specs.Prelude.{◌≡◌, ◌++◌, ◌∷◌, [], OnOk, codes, decimal, length};
ghost use Rattle.rehearse.specs.Events.{line_end};
ghost use Rattle.rehearse.specs.Lines.{response, closed, epoch_word};
ghost use Rattle.rehearse.specs.Defining.{define_line};
ghost use Rattle.rehearse.specs.Schedules.{script_line};
ghost use Rattle.rehearse.specs.Summary.{nothing};
ghost use Rattle.ictl.specs.Falls.{IsEnd};
ghost use Rattle.rehearse.specs.Playing.{Tells, closing_of};

use crate::tally::Tally;
use std::alloc::Global;
use tcl_eval::Outcome;
use tcl_host::OK;
use txt_core::{NoMemory, Text, write_natural};

/// Why a connection was closed.
#[derive(Clone, Copy, Debug, PartialEq, Eq)]
pub enum Closing {
    /// At the end of its input.
    Ended,
    /// Behind a request that asked so.
    Closing,
    /// The input ended inside a request, of which so many bytes were there.
    Truncated(u64),
    /// A request was refused with this status.
    Refused(u16),
    /// It had all that a connection may.
    Spent,
}

/// The part of a listing that wasn't passed on yet, and what was counted of the whole.
#[derive(Drop)]
pub struct Listing {
    alloc: Global,
    pub text: Text,
    pub tally: Tally,
}

impl Listing {
    /// Nothing was told.
    pub fn new(alloc: Global) -> Listing
        ensures { (result.text ≡ []) × (result.tally ≡ nothing) }
    {
        Listing {
            alloc,
            text: Text::empty(alloc),
            tally: Tally::new(),
        }
    }

    /// Appends a number and what stands behind it.
    fn push_number(&mut self, number: u64, behind: &[u8]) -> Result<(), NoMemory>
        ensures { OnOk result
            ((self.new.text ≡ self.old.text ++ decimal number ++ behind.now)
            × (self.new.tally ≡ self.old.tally)) }
    {
        let digits = write_natural(self.alloc, number)?;
        self.text.append(digits.bytes())?;
        self.text.append(behind)
    }

    /// Appends the length of a block as the last word of a line, and the block.
    fn push_block(&mut self, block: &[u8]) -> Result<(), NoMemory>
        ensures { OnOk result
            ((self.new.text
            ≡ self.old.text ++ decimal (length block.now) ++ line_end ++ block.now ++ line_end)
            × (self.new.tally ≡ self.old.tally)) }
    {
        self.push_number(block.len() as u64, b"\n")?;
        self.text.append(block)?;
        self.text.append(b"\n")
    }

    /// Appends an epoch as a word with a space behind it; no epoch is a dash.
    fn push_epoch(&mut self, epoch: Option<u64>) -> Result<(), NoMemory>
        ensures { OnOk result
            ((self.new.text ≡ self.old.text ++ epoch_word epoch ++ codes " ")
            × (self.new.tally ≡ self.old.tally)) }
    {
        match epoch {
            Some(epoch) => self.push_number(epoch, b" "),
            None => self.text.append(b"- "),
        }
    }

    /// A block ended so; where it ended well, this epoch is told.
    pub fn push_define(&mut self, epoch: u64, outcome: Outcome) -> Result<(), NoMemory>
        requires { IsEnd outcome }
        ensures { OnOk result (Tells self.old (define_line epoch outcome ∷ []) self.new) }
    {
        match outcome {
            Outcome::Done { code: OK, .. } => {
                self.text.append(b"defined ")?;
                self.push_number(epoch, b"\n")
            }
            Outcome::Done { result, .. } => {
                self.text.append(b"define error ")?;
                self.push_block(result.bytes())
            }
            Outcome::Spent => self.text.append(b"define spent\n"),
            Outcome::TooDeep => self.text.append(b"define deep\n"),
            Outcome::Asks(_) | Outcome::NoMemory => unreachable!(),
        }
    }

    /// A scheduled script ended so, on the blueprint of this epoch.
    pub fn push_script(&mut self, id: u64, epoch: u64, outcome: Outcome) -> Result<(), NoMemory>
        requires { IsEnd outcome }
        ensures { OnOk result (Tells self.old (script_line id epoch outcome ∷ []) self.new) }
    {
        self.text.append(b"script ")?;
        self.push_number(id, b" ")?;
        self.push_number(epoch, b" ")?;
        match outcome {
            Outcome::Done { code, result } => {
                self.push_number(u64::from(code), b" ")?;
                self.push_block(result.bytes())
            }
            Outcome::Spent => self.text.append(b"spent\n"),
            Outcome::TooDeep => self.text.append(b"deep\n"),
            Outcome::Asks(_) | Outcome::NoMemory => unreachable!(),
        }
    }

    /// A worker wrote a response of this status in these bytes, on the blueprint of this epoch; `None`
    /// where it is the reply of a refusal.
    pub fn push_response(
        &mut self,
        number: u64,
        epoch: Option<u64>,
        status: u16,
        bytes: &[u8],
    ) -> Result<(), NoMemory>
        ensures { OnOk result
            (Tells self.old (response number epoch status bytes.now ∷ []) self.new) }
    {
        self.text.append(b"response ")?;
        self.push_number(number, b" ")?;
        self.push_epoch(epoch)?;
        self.push_block(bytes)?;
        self.tally.count(status, bytes.len() as u64);
        Ok(())
    }

    /// A worker closed its connection.
    pub fn push_closed(&mut self, number: u64, why: Closing) -> Result<(), NoMemory>
        ensures { OnOk result (Tells self.old (closed number (closing_of why) ∷ []) self.new) }
    {
        self.text.append(b"closed ")?;
        self.push_number(number, b" ")?;
        match why {
            Closing::Ended => self.text.append(b"ended\n"),
            Closing::Closing => self.text.append(b"closing\n"),
            Closing::Spent => self.text.append(b"spent\n"),
            Closing::Truncated(have) => {
                self.text.append(b"truncated ")?;
                self.push_number(have, b"\n")
            }
            Closing::Refused(status) => {
                self.text.append(b"refused ")?;
                self.push_number(u64::from(status), b"\n")
            }
        }
    }
}
