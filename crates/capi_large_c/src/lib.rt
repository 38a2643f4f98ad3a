// The static library libcapi_large.a: the exports for C of `capi_large`. Each is the function of its name there, with its contract.
#![tactic(auto)]

pub mod boxed;
pub mod counted;
pub mod dxf;
pub mod listing;
pub mod page;
pub mod pair_large;
