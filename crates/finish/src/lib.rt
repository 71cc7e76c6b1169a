// Finish rules: which pictures a search gives up. A rule sees a picture alone.
#![tactic(auto)]

ghost use Rattle.std.specs.Prelude.{true, false, MatchBool};
ghost use Rattle.picture.specs.declared.settling.Quorum.TheVariants.{Every, Any};
ghost use Rattle.finish.specs.Rules.{Clean, RejectedBy, Spoilt};

use picture::Picture;
use picture::settling::Quorum;

pub trait FinishRule {
    fn rejected(&self, picture: &Picture) -> bool;
}

// The two rules at hand differ in their quorum alone, but each is a type with one `impl`, as a rule of somebody else would be.

// Every run is to stop in a goal: no cycle of moves is let pass.
#[derive(Clone, Copy, Debug, PartialEq, Eq)]
pub struct Strict;

// From wherever a run comes to, it is to be possible to stop in a goal.
#[derive(Clone, Copy, Debug, PartialEq, Eq)]
pub struct Patient;

// Is some configuration stopped off a goal, or stuck?
fn spoilt(picture: &Picture) -> bool
    ensures { MatchBool result (Spoilt picture.now) (Clean picture.now) }
{
    !picture.off_goal().is_empty() || !picture.stuck().is_empty()
}

// What both rules reject, and what does not come to rest by the rule's own quorum. Under `Every` that is a cycle and what leads
// into one; under `Any` it is what can reach neither an open configuration nor a stop.
fn rejects(picture: &Picture, quorum: Quorum) -> bool
    ensures { RejectedBy quorum picture.now result }
{
    spoilt(picture) || !picture.rests(quorum)
}

impl FinishRule for Strict {
    fn rejected(&self, picture: &Picture) -> bool
        ensures { RejectedBy Every picture.now result }
    {
        rejects(picture, Quorum::Every)
    }
}

impl FinishRule for Patient {
    fn rejected(&self, picture: &Picture) -> bool
        ensures { RejectedBy Any picture.now result }
    {
        rejects(picture, Quorum::Any)
    }
}
