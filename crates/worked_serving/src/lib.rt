//! Tests of what serves a town over connections and doors in memory, of what no clause says: what is answered, also in
//! pieces and where a take or a put fails, and that workers answer beside each other and beside the desk.
#![tactic(auto)]

#[cfg(test)]
mod connections;
#[cfg(test)]
mod control_connections;
#[cfg(test)]
mod control_requests;
#[cfg(test)]
mod faults;
#[cfg(test)]
mod route_connections;
#[cfg(test)]
mod serving_roads;
#[cfg(test)]
mod towns;
