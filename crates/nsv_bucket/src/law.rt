//! What the definitions say by themselves. Each function does nothing: its contract is the law.

ghost use Rattle.txt_core.specs.Names.{Bytes, Words};
ghost use Rattle.nsv_bucket.specs.Arrays.{Array, Arrays};
ghost use Rattle.nsv_bucket.specs.Laws.{WritesOne, RemovesOne, WritesPairs};
ghost use Rattle.nsv_bucket.specs.Steps.{StepsAreDetermined};

/// Words asked of a bucket have one reply and leave one bucket, but for want of memory.
pub fn steps_are_determined()
    ensures { StepsAreDetermined }
{}

/// A value that is written, and a key that is removed, change that key alone: every other key of the
/// array and every other array is as it was, and the array stands also where its last key went. Of a
/// list of pairs a key has its last value.
pub fn each_key_by_itself()
    ensures writes { (arrays : Arrays) (name key value : Bytes) → WritesOne arrays name key value }
    ensures removes { (arrays : Arrays) (name key : Bytes) → RemovesOne arrays name key }
    ensures pairs { (array : Array) (pairs : Words) → WritesPairs array pairs }
{}
