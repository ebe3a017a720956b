// Tables of trees: numbered lists whose trees grow and step in their own places.

#![tactic(auto)]

pub mod slice_table;
