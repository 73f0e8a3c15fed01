//! The actions that are kept, newest first.
ghost use Rattle.std.specs.Prelude.{◌≡◌, map, nat_eq, vec_capacity};
ghost use Rattle.std.specs.List.{list_any};
ghost use Rattle.std.specs.Option.{option_map};
ghost use Rattle.theory.specs.Resend.{first_due, kept};
ghost use Rattle.sender.specs.Resending.Handler.{action_of, lingering_until};

use crate::retransmit::action::Action;

/// Whether one of them is for the position.
pub(crate) fn asks_for(actions: &[Action], at: u64) -> bool
    ensures { result ≡ list_any (λ a. nat_eq a.at at) (map action_of actions.now) }
{
    actions.iter().any(|action| action.at == at)
}

/// Forgets those that linger until this moment or an earlier one.
pub(crate) fn forget_until(actions: &mut Vec<Action>, clock: u64)
    ensures kept { map action_of actions.new.items ≡ kept clock (map action_of actions.old.items) }
    ensures room { vec_capacity actions.new ≡ vec_capacity actions.old }
{
    actions.retain(|action| !(action.lingers && action.until <= clock));
}

/// The one that was taken first of those that aren't answered.
pub(crate) fn first_waiting(actions: &[Action]) -> Option<Action>
    ensures { option_map action_of result ≡ first_due (map action_of actions.now) }
{
    let mut first = None;
    for action in actions {
        if !action.lingers {
            first = Some(*action);
        }
    }
    first
}

/// Those for the position are answered, and linger until this moment.
pub(crate) fn linger_until(actions: &mut [Action], at: u64, until: u64)
    ensures { map action_of actions.new ≡ map (lingering_until at until) (map action_of actions.old) }
{
    for action in actions.iter_mut() {
        *action = lingering(*action, at, until);
    }
}

/// The action, and if it is for the position it lingers until this moment.
fn lingering(action: Action, at: u64, until: u64) -> Action
    ensures { action_of result ≡ lingering_until at until (action_of action) }
{
    if action.at == at {
        Action {
            lingers: true,
            until,
            ..action
        }
    } else {
        action
    }
}
