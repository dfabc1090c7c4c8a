//! The eight cells, their passes, and the calls on them.

ghost use Rattle.std.specs.Prelude.{◌≡◌, ◌<◌, ◌≤◌, IfOk, IsOk};
ghost use Rattle.txt_core.specs.Limits.{bucket_count};
ghost use Rattle.nsv_bucket.specs.Buckets.{bucket_asked};

use crate::cell::first_cell;
use nsv_bucket::{Bucket, Buckets, NsvReply, bucket_asked};
use std::alloc::Global;
use std::sync::Wait;
use turn_cell::{Pass, TurnCell, Turned};
use txt_core::{NoMemory, Words};

/// The leave of one thread to ask the shared arrays, and what that thread knows of each bucket: a
/// pass for each cell. It has no bytes.
#[derive(Drop)]
pub struct NsvPass {
    b0: Pass<Bucket>,
    b1: Pass<Bucket>,
    b2: Pass<Bucket>,
    b3: Pass<Bucket>,
    b4: Pass<Bucket>,
    b5: Pass<Bucket>,
    b6: Pass<Bucket>,
    b7: Pass<Bucket>,
}

/// The shared arrays: a cell for each of the eight buckets, which any number of threads use by turns.
///
/// It is shared by reference, and each thread has a pass of its own. Turns on different buckets don't
/// wait for each other.
#[derive(Drop)]
pub struct Nsv {
    b0: TurnCell<Bucket>,
    b1: TurnCell<Bucket>,
    b2: TurnCell<Bucket>,
    b3: TurnCell<Bucket>,
    b4: TurnCell<Bucket>,
    b5: TurnCell<Bucket>,
    b6: TurnCell<Bucket>,
    b7: TurnCell<Bucket>,
}

/// What asking gives: the bucket that was asked, the place of the turn in its history, counted from 0,
/// and the bucket's reply.
#[derive(Drop)]
pub struct NsvTurn {
    pub bucket: u8,
    pub place: u64,
    pub reply: NsvReply,
}

impl Nsv {
    ghost use Rattle.nsv_shared.specs.Cells.{AreOf, HaveUnits, AreWhole, KeepUnits, AreOpening, Leave, ArePartsOf, Join, AreInOrder, Asks, Close};

    /// Eight cells, each with a bucket that has no array, and their first passes, each of which has the
    /// whole share of 65,536 units and has seen no turn. The only error is want of memory.
    pub fn new(alloc: Global) -> Result<(Nsv, NsvPass), NoMemory>
        ensures cells { IfOk result (λ r. AreOf r.0 r.1) }
        ensures opening { IfOk result (λ r. AreOpening r.1) }
    {
        let (b0, p0) = first_cell(alloc)?;
        let (b1, p1) = first_cell(alloc)?;
        let (b2, p2) = first_cell(alloc)?;
        let (b3, p3) = first_cell(alloc)?;
        let (b4, p4) = first_cell(alloc)?;
        let (b5, p5) = first_cell(alloc)?;
        let (b6, p6) = first_cell(alloc)?;
        let (b7, p7) = first_cell(alloc)?;
        let pass = NsvPass {
            b0: p0,
            b1: p1,
            b2: p2,
            b3: p3,
            b4: p4,
            b5: p5,
            b6: p6,
            b7: p7,
        };
        let nsv = Nsv {
            b0,
            b1,
            b2,
            b3,
            b4,
            b5,
            b6,
            b7,
        };
        Ok((nsv, pass))
    }

    /// Passes for another thread: of each cell one unit of the share moves to the new pass, which has
    /// seen as much as the old one and has no own turn. It takes no memory and is never refused.
    ///
    /// Each pass needs at least 2 units, so passes that were split off aren't split again until they
    /// have taken in others.
    pub fn split(&self, pass: &mut NsvPass) -> Result<NsvPass, NoMemory>
        requires cells { AreOf self.now pass.old }
        requires units { HaveUnits 2 pass.old }
        ensures given { IsOk result }
        ensures cells { AreOf self.now pass.new }
        ensures left { Leave pass.old pass.new }
        ensures right { IfOk result (λ parts. AreOf self.now parts × ArePartsOf pass.old parts) }
    {
        Ok(NsvPass {
            b0: self.b0.part(&mut pass.b0),
            b1: self.b1.part(&mut pass.b1),
            b2: self.b2.part(&mut pass.b2),
            b3: self.b3.part(&mut pass.b3),
            b4: self.b4.part(&mut pass.b4),
            b5: self.b5.part(&mut pass.b5),
            b6: self.b6.part(&mut pass.b6),
            b7: self.b7.part(&mut pass.b7),
        })
    }

    /// Each pass takes in the other one of its cell, with its units and its turns, as a pass of one
    /// cell does. It takes no memory and can't be refused.
    pub fn join(&self, pass: &mut NsvPass, other: NsvPass)
        requires cells { AreOf self.now pass.old × AreOf self.now other }
        ensures cells { AreOf self.now pass.new }
        ensures both { Join pass.old other pass.new }
        ensures order { AreInOrder pass.new }
    {
        let NsvPass {
            b0,
            b1,
            b2,
            b3,
            b4,
            b5,
            b6,
            b7,
        } = other;
        self.b0.join(&mut pass.b0, b0);
        self.b1.join(&mut pass.b1, b1);
        self.b2.join(&mut pass.b2, b2);
        self.b3.join(&mut pass.b3, b3);
        self.b4.join(&mut pass.b4, b4);
        self.b5.join(&mut pass.b5, b5);
        self.b6.join(&mut pass.b6, b6);
        self.b7.join(&mut pass.b7, b7);
    }

    /// Puts words to their bucket, in one turn on its cell: the bucket of the array that they are
    /// about, or the one that those of `nsv_names` name. Words that are no question on shared arrays
    /// are put to one too, which refuses them with the empty text. The passes of the other buckets stay
    /// as they are.
    ///
    /// It may wait, while other threads have the bucket. Want of memory of the bucket is its reply.
    pub fn ask<R: Wait>(&self, rt: &R, pass: &mut NsvPass, words: Words) -> NsvTurn
        requires { AreOf self.now pass.old }
        ensures cells { AreOf self.now pass.new }
        ensures bucket { result.bucket ≡ bucket_asked words }
        ensures turn { Asks (bucket_asked words) result.place words result.reply pass.old pass.new }
        ensures units { KeepUnits pass.old pass.new }
    {
        let bucket = bucket_asked(&words);
        let Turned { place, reply } = self.turn_on(rt, pass, bucket, words);
        NsvTurn {
            bucket,
            place,
            reply,
        }
    }

    /// One turn on the bucket with this number.
    #[tactic(auto, using(crate::proofs::Turning::took, crate::proofs::Turning::stayed, crate::proofs::Turning::turn_units))]
    fn turn_on<R: Wait>(
        &self,
        rt: &R,
        pass: &mut NsvPass,
        bucket: u8,
        words: Words,
    ) -> Turned<Bucket>
        requires cells { AreOf self.now pass.old }
        requires below { bucket < bucket_count }
        ensures cells { AreOf self.now pass.new }
        ensures turn { Asks bucket result.place words result.reply pass.old pass.new }
        ensures units { KeepUnits pass.old pass.new }
    {
        match bucket {
            0 => self.b0.turn(rt, &mut pass.b0, words),
            1 => self.b1.turn(rt, &mut pass.b1, words),
            2 => self.b2.turn(rt, &mut pass.b2, words),
            3 => self.b3.turn(rt, &mut pass.b3, words),
            4 => self.b4.turn(rt, &mut pass.b4, words),
            5 => self.b5.turn(rt, &mut pass.b5, words),
            6 => self.b6.turn(rt, &mut pass.b6, words),
            _ => self.b7.turn(rt, &mut pass.b7, words),
        }
    }

    /// The buckets, at the end of their histories. Each pass has the whole share of its cell, so all
    /// others were joined and none was dropped, and its own turns are the whole history. It takes no
    /// memory.
    pub fn close<R: Wait>(self, rt: &R, pass: NsvPass) -> Buckets
        requires cells { AreOf self pass }
        requires whole { AreWhole pass }
        ensures { Close pass result }
    {
        Buckets::from_list([
            self.b0.close(rt, pass.b0),
            self.b1.close(rt, pass.b1),
            self.b2.close(rt, pass.b2),
            self.b3.close(rt, pass.b3),
            self.b4.close(rt, pass.b4),
            self.b5.close(rt, pass.b5),
            self.b6.close(rt, pass.b6),
            self.b7.close(rt, pass.b7),
        ])
    }
}
