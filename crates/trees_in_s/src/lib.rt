// The theorem that document 01's S with a table's scopes is accepted exactly where the table is legal, and else refused by 18, is in specs/. There is no code.
#![tactic(auto)]
