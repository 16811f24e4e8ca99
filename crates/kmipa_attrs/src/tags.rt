//! Tags: a constant for each that the profile speaks of, and its name (KMIP 2.1, the Tag enumeration).

ghost use Rattle.std.specs.Prelude.{◌≡◌};
ghost use Rattle.kmipa_attrs.specs.Tags.{tag_name_of};

use kmipa_ttlv::Tag;

pub const ACTIVATION_DATE: u32 = 0x42_0001;

pub const BATCH_COUNT: u32 = 0x42_000D;

pub const BATCH_ERROR_CONTINUATION_OPTION: u32 = 0x42_000E;

pub const BATCH_ITEM: u32 = 0x42_000F;

pub const BATCH_ORDER_OPTION: u32 = 0x42_0010;

pub const COMPROMISE_DATE: u32 = 0x42_0020;

pub const CRYPTOGRAPHIC_ALGORITHM: u32 = 0x42_0028;

pub const CRYPTOGRAPHIC_LENGTH: u32 = 0x42_002A;

pub const CRYPTOGRAPHIC_USAGE_MASK: u32 = 0x42_002C;

pub const DEACTIVATION_DATE: u32 = 0x42_002F;

pub const DESTROY_DATE: u32 = 0x42_0033;

pub const INITIAL_DATE: u32 = 0x42_0039;

pub const KEY_BLOCK: u32 = 0x42_0040;

pub const KEY_FORMAT_TYPE: u32 = 0x42_0042;

pub const KEY_MATERIAL: u32 = 0x42_0043;

pub const KEY_VALUE: u32 = 0x42_0045;

pub const KEY_WRAPPING_DATA: u32 = 0x42_0046;

pub const KEY_WRAPPING_SPECIFICATION: u32 = 0x42_0047;

pub const MAXIMUM_ITEMS: u32 = 0x42_004F;

pub const NAME: u32 = 0x42_0053;

pub const NAME_TYPE: u32 = 0x42_0054;

pub const NAME_VALUE: u32 = 0x42_0055;

pub const OBJECT_TYPE: u32 = 0x42_0057;

pub const OPERATION: u32 = 0x42_005C;

pub const PROTOCOL_VERSION: u32 = 0x42_0069;

pub const PROTOCOL_VERSION_MAJOR: u32 = 0x42_006A;

pub const PROTOCOL_VERSION_MINOR: u32 = 0x42_006B;

pub const REQUEST_HEADER: u32 = 0x42_0077;

pub const REQUEST_MESSAGE: u32 = 0x42_0078;

pub const REQUEST_PAYLOAD: u32 = 0x42_0079;

pub const RESPONSE_HEADER: u32 = 0x42_007A;

pub const RESPONSE_MESSAGE: u32 = 0x42_007B;

pub const RESPONSE_PAYLOAD: u32 = 0x42_007C;

pub const RESULT_MESSAGE: u32 = 0x42_007D;

pub const RESULT_REASON: u32 = 0x42_007E;

pub const RESULT_STATUS: u32 = 0x42_007F;

pub const REVOCATION_REASON: u32 = 0x42_0081;

pub const REVOCATION_REASON_CODE: u32 = 0x42_0082;

pub const SECRET_DATA: u32 = 0x42_0085;

pub const SECRET_DATA_TYPE: u32 = 0x42_0086;

pub const STATE: u32 = 0x42_008D;

pub const SYMMETRIC_KEY: u32 = 0x42_008F;

pub const TIME_STAMP: u32 = 0x42_0092;

pub const UNIQUE_BATCH_ITEM_ID: u32 = 0x42_0093;

pub const UNIQUE_IDENTIFIER: u32 = 0x42_0094;

pub const ATTRIBUTES: u32 = 0x42_0125;

pub const ATTRIBUTE_REFERENCE: u32 = 0x42_013B;

/// The name of a tag that the profile speaks of, as the standard writes it, else `-`.
pub fn tag_name(tag: Tag) -> &'static str
    ensures { result.now ≡ tag_name_of tag.number }
{
    match tag.number {
        ACTIVATION_DATE => "Activation Date",
        BATCH_COUNT => "Batch Count",
        BATCH_ERROR_CONTINUATION_OPTION => "Batch Error Continuation Option",
        BATCH_ITEM => "Batch Item",
        BATCH_ORDER_OPTION => "Batch Order Option",
        COMPROMISE_DATE => "Compromise Date",
        CRYPTOGRAPHIC_ALGORITHM => "Cryptographic Algorithm",
        CRYPTOGRAPHIC_LENGTH => "Cryptographic Length",
        CRYPTOGRAPHIC_USAGE_MASK => "Cryptographic Usage Mask",
        DEACTIVATION_DATE => "Deactivation Date",
        DESTROY_DATE => "Destroy Date",
        INITIAL_DATE => "Initial Date",
        KEY_BLOCK => "Key Block",
        KEY_FORMAT_TYPE => "Key Format Type",
        KEY_MATERIAL => "Key Material",
        KEY_VALUE => "Key Value",
        KEY_WRAPPING_DATA => "Key Wrapping Data",
        KEY_WRAPPING_SPECIFICATION => "Key Wrapping Specification",
        MAXIMUM_ITEMS => "Maximum Items",
        NAME => "Name",
        NAME_TYPE => "Name Type",
        NAME_VALUE => "Name Value",
        OBJECT_TYPE => "Object Type",
        OPERATION => "Operation",
        PROTOCOL_VERSION => "Protocol Version",
        PROTOCOL_VERSION_MAJOR => "Protocol Version Major",
        PROTOCOL_VERSION_MINOR => "Protocol Version Minor",
        REQUEST_HEADER => "Request Header",
        REQUEST_MESSAGE => "Request Message",
        REQUEST_PAYLOAD => "Request Payload",
        RESPONSE_HEADER => "Response Header",
        RESPONSE_MESSAGE => "Response Message",
        RESPONSE_PAYLOAD => "Response Payload",
        RESULT_MESSAGE => "Result Message",
        RESULT_REASON => "Result Reason",
        RESULT_STATUS => "Result Status",
        REVOCATION_REASON => "Revocation Reason",
        REVOCATION_REASON_CODE => "Revocation Reason Code",
        SECRET_DATA => "Secret Data",
        SECRET_DATA_TYPE => "Secret Data Type",
        STATE => "State",
        SYMMETRIC_KEY => "Symmetric Key",
        TIME_STAMP => "Time Stamp",
        UNIQUE_BATCH_ITEM_ID => "Unique Batch Item ID",
        UNIQUE_IDENTIFIER => "Unique Identifier",
        ATTRIBUTES => "Attributes",
        ATTRIBUTE_REFERENCE => "Attribute Reference",
        _ => "-",
    }
}
