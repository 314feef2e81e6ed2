//! A second planner, as plain as can be: it tries links in sorted order, keeps one label for each node, and works every
//! tree out anew after each change. It has nothing from the planner that it is compared with.
pub mod forecast;
pub mod order;
pub mod records;
pub mod tree;
pub mod work;
