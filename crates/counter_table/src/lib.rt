// RULES.md, Counter table, proved as one statement.

#![tactic(auto)]

ghost use Rattle.counter_table.specs.Table.{CounterTable, CounterExamples};

// All nine lines of the table, of the definitions that the contracts cite.
pub fn counter_table()
    ensures { CounterTable }
{}

// The lines about registries in general, each at a registry that calls lead to, and `route`'s answers there.
pub fn counter_examples()
    ensures { CounterExamples }
{}
