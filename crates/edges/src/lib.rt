// The edge cases of the rules (docs/RULES.md, "Edge cases"), proved as one list over the definitions that the
// contracts cite.
#![tactic(auto)]

ghost use Rattle.edges.specs.Edges.{AllHold, edge_cases};

// Each edge case comes to what is due.
pub fn edge_cases_come_out_as_the_rules_say()
    ensures { AllHold edge_cases }
{}
