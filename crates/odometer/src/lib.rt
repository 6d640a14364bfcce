// An odometer over the choices of a production. No public call: `listings` builds its own on `inner`.
#![tactic(auto)]

pub mod inner;
