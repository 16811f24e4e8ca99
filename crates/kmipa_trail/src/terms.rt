//! By what a transcript is checked.

use kmipa_aside::Owned;
use kmipa_check::Grants;
use kmipa_msgs::Rules;

/// The rules of a server, what it is granted, and whose the objects are at first: no one's, where each client sees every object.
#[derive(Drop)]
pub struct Terms<'r, 'g, 'a> {
    pub rules: &'r Rules,
    pub grants: &'g Grants<'g>,
    pub owners: Vec<Owned<'a>>,
}
