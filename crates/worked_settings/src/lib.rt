//! Tests over worked settings of both versions, of what no clause says: that they are read where memory is ample, that the
//! first fault is told, and that ways are used by their tags as the definitions are meant.
#![tactic(auto)]

#[cfg(test)]
mod first_settings;
#[cfg(test)]
mod second_settings;
