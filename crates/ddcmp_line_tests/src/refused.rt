//! One allocation fails, at any point, in a pair, a script, a served station and explain. Outside
//! the gate these tests are run with one allocation after another failing; in the gate none fails.

mod explains;
mod pairs;
mod scripts;
mod serves;
