//! The tests of WebSocket links, devices, lines of an input and the command line.
#![tactic(auto)]

#[cfg(test)]
mod command_lines;
#[cfg(test)]
mod devices;
#[cfg(test)]
mod input_lines;
#[cfg(test)]
mod links;
#[cfg(test)]
mod stop_at;
#[cfg(test)]
mod told;
