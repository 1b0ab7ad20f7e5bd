// What a column adds up, and what its total and its slack say of the exact sum. There is no code here: each function
// stands for a law of the definitions in specs/, which the contracts of the other crates cite.
#![tactic(auto)]

ghost use Rattle.sums.specs.Laws.{WithinSlack, ZeroSlack, OrderFree};

// The total and the slack tell where the exact sum lies.
pub fn within_slack()
    ensures { WithinSlack }
{}

// The slack is 0 exactly when no term with a weight other than 0 was lost.
pub fn zero_slack()
    ensures { ZeroSlack }
{}

// The same terms, each as often, have one total and one slack.
pub fn order_free()
    ensures { OrderFree }
{}
