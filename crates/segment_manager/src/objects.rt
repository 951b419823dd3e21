//! Objects of all kinds: calls that find, construct, describe and destroy them.
pub(crate) mod construct_keys;
pub(crate) mod constructing;
pub(crate) mod constructing_from;
pub(crate) mod destroying;
pub(crate) mod finding;
pub(crate) mod head;
pub(crate) mod instance_info;
pub(crate) mod object_ref;
pub(crate) mod pending_object;
pub(crate) mod walking_objects;
