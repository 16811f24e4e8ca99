//! The names of enumerations' numbers, as the standard writes them (KMIP 2.1, section 11).

ghost use Rattle.std.specs.Prelude.{◌≡◌, option_map};
ghost use Rattle.kmipa_runs.specs.Notes.{batch_error_continuation_options, cryptographic_algorithms, key_format_types, name_among, name_types, number_name_of, object_types, operations, result_reasons, result_statuses, revocation_reason_codes, secret_data_types, states};

use kmipa_attrs::tags;
use kmipa_ttlv::Tag;

/// The name of a number of the enumeration that items with this tag hold, or `None` where the standard names none.
pub fn number_name(tag: Tag, number: u32) -> Option<&'static str>
    ensures { option_map (λ name. name.now) result ≡ number_name_of tag.number number }
{
    match tag.number {
        tags::OPERATION => operation_name(number),
        tags::RESULT_STATUS => result_status_name(number),
        tags::RESULT_REASON => result_reason_name(number),
        tags::BATCH_ERROR_CONTINUATION_OPTION => option_name(number),
        tags::STATE => state_name(number),
        tags::OBJECT_TYPE => object_type_name(number),
        tags::KEY_FORMAT_TYPE => key_format_name(number),
        tags::NAME_TYPE => name_type_name(number),
        tags::CRYPTOGRAPHIC_ALGORITHM => algorithm_name(number),
        tags::REVOCATION_REASON_CODE => revocation_name(number),
        tags::SECRET_DATA_TYPE => secret_data_name(number),
        _ => None,
    }
}

/// The name of an operation's number, or `None` where it has none here.
#[tactic(auto, unfolding(crate::specs::Notes::operations))]
pub fn operation_name(number: u32) -> Option<&'static str>
    ensures { option_map (λ name. name.now) result ≡ name_among operations number }
{
    match number {
        1 => Some("Create"),
        2 => Some("Create Key Pair"),
        3 => Some("Register"),
        4 => Some("Re-key"),
        5 => Some("Derive Key"),
        6 => Some("Certify"),
        7 => Some("Re-certify"),
        8 => Some("Locate"),
        9 => Some("Check"),
        0xA => Some("Get"),
        0xB => Some("Get Attributes"),
        0xC => Some("Get Attribute List"),
        0xD => Some("Add Attribute"),
        0xE => Some("Modify Attribute"),
        0xF => Some("Delete Attribute"),
        0x10 => Some("Obtain Lease"),
        0x11 => Some("Get Usage Allocation"),
        0x12 => Some("Activate"),
        0x13 => Some("Revoke"),
        0x14 => Some("Destroy"),
        0x15 => Some("Archive"),
        0x16 => Some("Recover"),
        0x17 => Some("Validate"),
        0x18 => Some("Query"),
        0x19 => Some("Cancel"),
        0x1A => Some("Poll"),
        0x1B => Some("Notify"),
        0x1C => Some("Put"),
        0x1D => Some("Re-key Key Pair"),
        0x1E => Some("Discover Versions"),
        0x1F => Some("Encrypt"),
        0x20 => Some("Decrypt"),
        0x21 => Some("Sign"),
        0x22 => Some("Signature Verify"),
        0x23 => Some("MAC"),
        0x24 => Some("MAC Verify"),
        0x25 => Some("RNG Retrieve"),
        0x26 => Some("RNG Seed"),
        0x27 => Some("Hash"),
        0x28 => Some("Create Split Key"),
        0x29 => Some("Join Split Key"),
        0x2A => Some("Import"),
        0x2B => Some("Export"),
        0x2C => Some("Log"),
        0x2D => Some("Login"),
        0x2E => Some("Logout"),
        0x2F => Some("Delegated Login"),
        0x30 => Some("Adjust Attribute"),
        0x31 => Some("Set Attribute"),
        0x32 => Some("Set Endpoint Role"),
        0x33 => Some("PKCS#11"),
        0x34 => Some("Interop"),
        0x35 => Some("Re-Provision"),
        _ => None,
    }
}

#[tactic(auto, unfolding(crate::specs::Notes::result_statuses))]
fn result_status_name(number: u32) -> Option<&'static str>
    ensures { option_map (λ name. name.now) result ≡ name_among result_statuses number }
{
    match number {
        0 => Some("Success"),
        1 => Some("Operation Failed"),
        2 => Some("Operation Pending"),
        3 => Some("Operation Undone"),
        _ => None,
    }
}

/// The name of a Result Reason's number, or `None` where the standard names none.
#[tactic(auto, unfolding(crate::specs::Notes::result_reasons))]
pub fn result_reason_name(number: u32) -> Option<&'static str>
    ensures { option_map (λ name. name.now) result ≡ name_among result_reasons number }
{
    match number {
        1 => Some("Item Not Found"),
        2 => Some("Response Too Large"),
        3 => Some("Authentication Not Successful"),
        4 => Some("Invalid Message"),
        5 => Some("Operation Not Supported"),
        6 => Some("Missing Data"),
        7 => Some("Invalid Field"),
        8 => Some("Feature Not Supported"),
        9 => Some("Operation Canceled By Requester"),
        0xA => Some("Cryptographic Failure"),
        0xC => Some("Permission Denied"),
        0xD => Some("Object Archived"),
        0xF => Some("Application Namespace Not Supported"),
        0x10 => Some("Key Format Type Not Supported"),
        0x11 => Some("Key Compression Type Not Supported"),
        0x12 => Some("Encoding Option Error"),
        0x13 => Some("Key Value Not Present"),
        0x16 => Some("Sensitive"),
        0x17 => Some("Not Extractable"),
        0x18 => Some("Object Already Exists"),
        0x1A => Some("Usage Limit Exceeded"),
        0x1B => Some("Numeric Range"),
        0x1C => Some("Invalid Data Type"),
        0x1D => Some("Read Only Attribute"),
        0x1E => Some("Multi Valued Attribute"),
        0x1F => Some("Unsupported Attribute"),
        0x20 => Some("Attribute Instance Not Found"),
        0x21 => Some("Attribute Not Found"),
        0x22 => Some("Attribute Read Only"),
        0x23 => Some("Attribute Single Valued"),
        0x24 => Some("Bad Cryptographic Parameters"),
        0x25 => Some("Bad Password"),
        0x28 => Some("Illegal Object Type"),
        0x29 => Some("Incompatible Cryptographic Usage Mask"),
        0x2A => Some("Internal Server Error"),
        0x2C => Some("Invalid Attribute"),
        0x2D => Some("Invalid Attribute Value"),
        0x30 => Some("Invalid Object Type"),
        0x32 => Some("Key Wrap Type Not Supported"),
        0x35 => Some("Non Unique Name Attribute"),
        0x36 => Some("Object Destroyed"),
        0x37 => Some("Object Not Found"),
        0x39 => Some("Not Authorised"),
        0x3A => Some("Server Limit Exceeded"),
        0x3B => Some("Unknown Enumeration"),
        0x3D => Some("Unknown Tag"),
        0x3E => Some("Unsupported Cryptographic Parameters"),
        0x3F => Some("Unsupported Protocol Version"),
        0x43 => Some("Wrong Key Lifecycle State"),
        0x100 => Some("General Failure"),
        _ => None,
    }
}

#[tactic(auto, unfolding(crate::specs::Notes::batch_error_continuation_options))]
fn option_name(number: u32) -> Option<&'static str>
    ensures { option_map (λ name. name.now) result ≡ name_among batch_error_continuation_options number }
{
    match number {
        1 => Some("Continue"),
        2 => Some("Stop"),
        3 => Some("Undo"),
        _ => None,
    }
}

#[tactic(auto, unfolding(crate::specs::Notes::states))]
fn state_name(number: u32) -> Option<&'static str>
    ensures { option_map (λ name. name.now) result ≡ name_among states number }
{
    match number {
        1 => Some("Pre-Active"),
        2 => Some("Active"),
        3 => Some("Deactivated"),
        4 => Some("Compromised"),
        5 => Some("Destroyed"),
        6 => Some("Destroyed Compromised"),
        _ => None,
    }
}

/// The name of an object type's number, or `None` where the standard names none.
#[tactic(auto, unfolding(crate::specs::Notes::object_types))]
pub fn object_type_name(number: u32) -> Option<&'static str>
    ensures { option_map (λ name. name.now) result ≡ name_among object_types number }
{
    match number {
        1 => Some("Certificate"),
        2 => Some("Symmetric Key"),
        3 => Some("Public Key"),
        4 => Some("Private Key"),
        5 => Some("Split Key"),
        7 => Some("Secret Data"),
        8 => Some("Opaque Object"),
        9 => Some("PGP Key"),
        0xA => Some("Certificate Request"),
        _ => None,
    }
}

#[tactic(auto, unfolding(crate::specs::Notes::key_format_types))]
fn key_format_name(number: u32) -> Option<&'static str>
    ensures { option_map (λ name. name.now) result ≡ name_among key_format_types number }
{
    match number {
        1 => Some("Raw"),
        2 => Some("Opaque"),
        3 => Some("PKCS#1"),
        4 => Some("PKCS#8"),
        5 => Some("X.509"),
        6 => Some("EC Private Key"),
        7 => Some("Transparent Symmetric Key"),
        8 => Some("Transparent DSA Private Key"),
        9 => Some("Transparent DSA Public Key"),
        0xA => Some("Transparent RSA Private Key"),
        0xB => Some("Transparent RSA Public Key"),
        0xC => Some("Transparent DH Private Key"),
        0xD => Some("Transparent DH Public Key"),
        0x14 => Some("Transparent EC Private Key"),
        0x15 => Some("Transparent EC Public Key"),
        0x16 => Some("PKCS#12"),
        0x17 => Some("PKCS#10"),
        _ => None,
    }
}

/// The name of a name type's number, or `None` where the standard names none.
#[tactic(auto, unfolding(crate::specs::Notes::name_types))]
pub fn name_type_name(number: u32) -> Option<&'static str>
    ensures { option_map (λ name. name.now) result ≡ name_among name_types number }
{
    match number {
        1 => Some("Uninterpreted Text String"),
        2 => Some("URI"),
        _ => None,
    }
}

/// The name of a cryptographic algorithm's number, or `None` where the standard names none.
#[tactic(auto, unfolding(crate::specs::Notes::cryptographic_algorithms))]
pub fn algorithm_name(number: u32) -> Option<&'static str>
    ensures { option_map (λ name. name.now) result ≡ name_among cryptographic_algorithms number }
{
    match number {
        1 => Some("DES"),
        2 => Some("3DES"),
        3 => Some("AES"),
        4 => Some("RSA"),
        5 => Some("DSA"),
        6 => Some("ECDSA"),
        7 => Some("HMAC-SHA1"),
        8 => Some("HMAC-SHA224"),
        9 => Some("HMAC-SHA256"),
        0xA => Some("HMAC-SHA384"),
        0xB => Some("HMAC-SHA512"),
        0xC => Some("HMAC-MD5"),
        0xD => Some("DH"),
        0xE => Some("ECDH"),
        0xF => Some("ECMQV"),
        0x10 => Some("Blowfish"),
        0x11 => Some("Camellia"),
        0x12 => Some("CAST5"),
        0x13 => Some("IDEA"),
        0x14 => Some("MARS"),
        0x15 => Some("RC2"),
        0x16 => Some("RC4"),
        0x17 => Some("RC5"),
        0x18 => Some("SKIPJACK"),
        0x19 => Some("Twofish"),
        0x1A => Some("EC"),
        0x1B => Some("One Time Pad"),
        0x1C => Some("ChaCha20"),
        0x1D => Some("Poly1305"),
        0x1E => Some("ChaCha20Poly1305"),
        _ => None,
    }
}

#[tactic(auto, unfolding(crate::specs::Notes::revocation_reason_codes))]
fn revocation_name(number: u32) -> Option<&'static str>
    ensures { option_map (λ name. name.now) result ≡ name_among revocation_reason_codes number }
{
    match number {
        1 => Some("Unspecified"),
        2 => Some("Key Compromise"),
        3 => Some("CA Compromise"),
        4 => Some("Affiliation Changed"),
        5 => Some("Superseded"),
        6 => Some("Cessation of Operation"),
        7 => Some("Privilege Withdrawn"),
        _ => None,
    }
}

#[tactic(auto, unfolding(crate::specs::Notes::secret_data_types))]
fn secret_data_name(number: u32) -> Option<&'static str>
    ensures { option_map (λ name. name.now) result ≡ name_among secret_data_types number }
{
    match number {
        1 => Some("Password"),
        2 => Some("Seed"),
        _ => None,
    }
}
