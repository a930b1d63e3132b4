//! That a history is in order exactly where it is a play of the rules.

ghost use Rattle.act_order_plays.specs.Plays.{HistoriesArePlays, OrdersArePlays, PlaysAreInOrder};

/// What a history in order tells is left by a play of the rules, whose actors are of a kind of one's own.
#[tactic(none)]
pub fn histories_are_plays()
    ensures { HistoriesArePlays }
{}

/// What a play of the rules leaves is in order.
#[tactic(none)]
pub fn plays_are_in_order()
    ensures { PlaysAreInOrder }
{}

/// A whole history is in order, and fits the limits of the service, exactly where some play of the rules leaves it.
#[tactic(none)]
pub fn orders_are_plays()
    ensures { OrdersArePlays }
{}
