// Worked examples, edges and random spans for the surfaces and the painter, through their public calls.
#![tactic(auto)]

#[cfg(test)]
mod drawing_tests;
#[cfg(test)]
mod mapping_tests;
#[cfg(test)]
mod pixel_tests;
#[cfg(test)]
mod shapes;
#[cfg(test)]
mod table;
#[cfg(test)]
mod table_tests;
