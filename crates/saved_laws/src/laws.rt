//! The laws.

ghost use Rattle.std.specs.Prelude.{◌∷◌, ◌++◌, [], ℕ, List, Contains};
ghost use Rattle.loop_messages.specs.declared.message.Said.{Said};
ghost use Rattle.server.specs.Answering.{AnsweringView};
ghost use Rattle.server.specs.Durable.{HandsOutSaved};
ghost use Rattle.saved_laws.specs.Behind.{Moment, moment_with, IsBehind};

use server::Save;

/// When a process begins nothing has left it.
///
/// No code calls it: it is for readers.
pub fn a_start_is_behind<S: Save>()
    ensures { (saver : S) (moments : List Moment) → IsBehind S.is_text (S.may_find saver) (S.may_find saver) moments [] }
{}

/// A call that saves nothing and hands out nothing, as `hear` or `tick`, is followed by one moment more.
///
/// No code calls it: it is for readers.
pub fn hearing_is_behind<S: Save>()
    ensures { (begun saver : S) (moments : List Moment) (left : List Said) (now : Moment) → IsBehind S.is_text (S.may_find begun) (S.may_find saver) moments left
        → IsBehind S.is_text (S.may_find begun) (S.may_find saver) (moments ++ now ∷ []) left }
{}

/// A call of `DurableService::work`, of which `HandsOutSaved` is what it ensures: if before it whatever might be found was
/// of a moment by which all that had left was said, it is so after it, with what leaves by this call.
///
/// No code calls it: it is for readers.
pub fn work_is_behind<S: Save>()
    ensures { (begun before saver : S) (moments : List Moment) (left held out rest : List Said) (seconds : ℕ) (v now : AnsweringView)
        → Contains moments (moment_with v left held) → IsBehind S.is_text (S.may_find begun) (S.may_find before) moments left
        → HandsOutSaved S.is_text (S.may_find before) (S.may_find saver) seconds v held out now rest
        → IsBehind S.is_text (S.may_find begun) (S.may_find saver) (moments ++ moment_with now (left ++ out) rest ∷ []) (left ++ out) }
{}
