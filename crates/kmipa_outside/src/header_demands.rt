//! The headers of messages (KMIP 2.1, section 9).

ghost use Rattle.std.specs.Prelude.{◌≡◌};
ghost use Rattle.kmipa_outside.specs.HeaderDemands.{request_header_demands, response_header_demands};

use crate::demand::Demand;
use crate::demands::demands;
use kmipa_attrs::tags::{
    BATCH_COUNT, BATCH_ERROR_CONTINUATION_OPTION, BATCH_ORDER_OPTION, PROTOCOL_VERSION_MAJOR,
    PROTOCOL_VERSION_MINOR, TIME_STAMP,
};
use kmipa_msgs::OutsideKind;

/// A Request Header, before so many items.
pub(crate) fn request_header_demands(count: usize) -> [Demand; 6]
    ensures { result ≡ request_header_demands count }
{
    demands![
        Version PROTOCOL_VERSION_MAJOR (Integer 2) Version;
        Version PROTOCOL_VERSION_MINOR (Integer 1) Version;
        Here BATCH_COUNT (Count count) Count;
        Here BATCH_ERROR_CONTINUATION_OPTION (MaybeTyped Enumeration) Missing;
        Here BATCH_ERROR_CONTINUATION_OPTION (OneOf BatchOptions) Missing;
        Here BATCH_ORDER_OPTION (MaybeTyped Boolean) Missing;
    ]
}

/// A Response Header, before so many items.
pub(crate) fn response_header_demands(count: usize) -> [Demand; 4]
    ensures { result ≡ response_header_demands count }
{
    demands![
        Version PROTOCOL_VERSION_MAJOR (Integer 2) Version;
        Version PROTOCOL_VERSION_MINOR (Integer 1) Version;
        Here BATCH_COUNT (Count count) Count;
        Here TIME_STAMP (Typed DateTime) Missing;
    ]
}
