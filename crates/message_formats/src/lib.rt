// What the messages of 004 clause 9.2 are made of: what a field may hold, and what follows the fields.
#![tactic(auto, unfolding(crate::specs::Formats::form_of, crate::specs::Formats::rest_of, crate::specs::Formats::contents_of))]

ghost use Rattle.std.specs.Prelude.{◌≡◌};
ghost use Rattle.message_formats.specs.Formats as Formats;
ghost use Rattle.message_formats.specs.Formats.{form_of, rest_of};

// A field, by its name in 004. `Change` is the operation that changes parameters or policies, `LockOrUnlock` the other two; `NoErrorData` is the error's
// data where Table 21 says 0.
#[derive(Clone, Copy)]
pub enum Field {
    Unused,
    AuthVersion,
    VersionNumberEntryCount,
    VersionNumberEntry,
    MessageCaps,
    AuthProcessCaps,
    DeviceProvisioningState,
    AuthRecordProcessTime,
    BaseAsymAlgoSupported,
    BaseHashAlgoSupported,
    SupportedPolicyOwnerIDCount,
    Change,
    LockOrUnlock,
    CredentialID,
    CredentialType,
    BaseAsymAlgo,
    BaseHashAlgo,
    Reserved,
    CredentialDataSize,
    CredAttributes,
    NumPolicies,
    RegistryID,
    VendorIDLen,
    PolicyVersion,
    PolicyLen,
    AuthProcInfoCount,
    AuthProcessType,
    StartAttributes,
    NonceLen,
    EndAttributes,
    DataType,
    SVResetDataTypeCount,
    SVResetDataTypeLen,
    ErrorCode,
    ErrorData,
    NoErrorData,
}

// What a field holds: its bytes; of how many values the bits that count say one, 0 where all bits count; and the least and the most that it may say.
#[derive(Clone, Copy)]
pub struct Form {
    pub width: usize,
    pub values: u64,
    pub least: u64,
    pub most: u64,
}

// A part of a list: an element of it.
#[derive(Clone, Copy)]
pub enum Part {
    VersionEntry,
    ProcessInfo,
    Owner,
    Policy,
    ResetElement,
}

// What follows the fields. A place is that of a value among the fields.
#[derive(Clone, Copy)]
pub enum Rest {
    Exactly(usize),
    Said(usize),
    SaidTo(usize, usize),
    Parts(Part, usize),
    Never,
}

// A message, or a piece of a list, by what it is made of; in brackets 004's tables. Formats.antt has what stands at which byte, at `contents_of`.
#[derive(Clone, Copy)]
pub enum Shape {
    // no code, operation or error of 004
    NoMessage,
    // GET_AUTH_VERSION (23), GET_AUTH_CAPABILITIES (28), ELEVATE_PRIVILEGE (55), END_ELEVATED_PRIVILEGE (57), TAKE_OWNERSHIP (59); SELECT_AUTH_VERSION_RSP (27),
    // SET_CRED_ID_PARAMS_DONE (35), SET_AUTH_POLICY_DONE (41), PRIVILEGE_ELEVATED (56), ELEVATED_PRIVILEGE_ENDED (58), OWNERSHIP_TAKEN (60), AUTH_DEFAULTS_APPLIED (64)
    Plain,
    // SELECT_AUTH_VERSION (26)
    VersionNumber,
    // GET_CRED_ID_PARAMS (36), GET_AUTH_POLICY (42), GET_AUTH_PROCESSES (44), END_AUTH_RSP (53)
    OneCredential,
    // SET_CRED_ID_PARAMS (33) with ParameterChange (34)
    ChangeCredential,
    // SET_AUTH_POLICY (39) with PolicyChange (40)
    ChangePolicies,
    // SET_CRED_ID_PARAMS (33) and SET_AUTH_POLICY (39) with Lock or Unlock (34, 40)
    LockOrUnlocking,
    // START_AUTH (49)
    StartAuth,
    // END_AUTH (52)
    EndAuth,
    // AUTH_RESET_TO_DEFAULT (61)
    Reset,
    // KILL_AUTH_PROCESS (47)
    CredentialAndName,
    // AUTH_VERSION (24)
    VersionList,
    // CRED_ID_PARAMS (37)
    CredentialParameters,
    // AUTH_POLICY (43)
    PolicyAnswer,
    // START_AUTH_RSP (51)
    StartAuthResponse,
    // AUTH_CAPABILITIES (29)
    Capabilities,
    // AUTH_PROCESSES (45)
    ProcessList,
    // PROCESS_KILLED (48)
    NameAlone,
    // AUTH_ERROR (20) with the errors of Table 21 that have no data
    PlainError,
    // AUTH_ERROR with UnsupportedRequest, 0x09
    UnsupportedRequest,
    // AUTH_ERROR with TermAuthProc, 0x0b
    Terminated,
    // AUTH_ERROR, vendor or standards-defined, 0xff (22)
    VendorError,
    // an entry of AUTH_VERSION (25)
    VersionPiece,
    // a process of AUTH_PROCESSES (46)
    ProcessPiece,
    // the owner of a policy (4, 29) or of a reset element (63)
    OwnerPiece,
    // a policy behind its owner (4)
    PolicyPiece,
    // a reset element behind its owner (63)
    ResetPiece,
}

fn between(width: usize, least: u64, most: u64) -> Form
    ensures { result ≡ Formats.between width least most }
{
    Form {
        width,
        values: 0,
        least,
        most,
    }
}

fn flags(width: usize, values: u64, most: u64) -> Form
    ensures { result ≡ Formats.flags width values most }
{
    Form {
        width,
        values,
        least: 0,
        most,
    }
}

pub fn form_of(field: Field) -> Form
    ensures { result ≡ form_of field }
{
    match field {
        Field::Unused => flags(0, 1, 0),
        Field::AuthVersion => between(1, 0, 255),
        Field::VersionNumberEntryCount => between(1, 0, 255),
        Field::VersionNumberEntry => between(2, 0, 65535),
        Field::MessageCaps => flags(2, 64, 63),
        Field::AuthProcessCaps => flags(2, 16, 15),
        Field::DeviceProvisioningState => between(1, 0, 2),
        Field::AuthRecordProcessTime => between(1, 0, 31),
        Field::BaseAsymAlgoSupported => flags(8, 4096, 4095),
        Field::BaseHashAlgoSupported => flags(8, 128, 127),
        Field::SupportedPolicyOwnerIDCount => between(2, 0, 65535),
        Field::Change => between(1, 1, 1),
        Field::LockOrUnlock => between(1, 2, 3),
        Field::CredentialID => between(2, 0, 65535),
        Field::CredentialType => between(1, 1, 1),
        Field::BaseAsymAlgo => flags(8, 4096, 4095),
        Field::BaseHashAlgo => flags(8, 128, 127),
        Field::Reserved => flags(4, 1, 0),
        Field::CredentialDataSize => between(4, 0, 4294967295),
        Field::CredAttributes => flags(2, 8, 7),
        Field::NumPolicies => between(2, 1, 65535),
        Field::RegistryID => between(1, 0, 255),
        Field::VendorIDLen => between(1, 0, 255),
        Field::PolicyVersion => between(4, 0, 4294967295),
        Field::PolicyLen => between(2, 0, 65535),
        Field::AuthProcInfoCount => between(2, 0, 65535),
        Field::AuthProcessType => between(1, 0, 2),
        Field::StartAttributes => flags(1, 2, 1),
        Field::NonceLen => between(1, 32, 32),
        Field::EndAttributes => flags(1, 4, 2),
        Field::DataType => flags(2, 4, 3),
        Field::SVResetDataTypeCount => between(2, 0, 65535),
        Field::SVResetDataTypeLen => between(1, 0, 32),
        Field::ErrorCode => between(1, 0, 255),
        Field::ErrorData => between(1, 0, 255),
        Field::NoErrorData => between(1, 0, 0),
    }
}

// What follows the fields of a shape.
pub fn rest_of(shape: Shape) -> Rest
    ensures { result ≡ rest_of shape }
{
    match shape {
        Shape::NoMessage => Rest::Never,
        Shape::Plain => Rest::Exactly(0),
        Shape::VersionNumber => Rest::Exactly(0),
        Shape::OneCredential => Rest::Exactly(0),
        Shape::ChangeCredential => Rest::Said(6),
        Shape::ChangePolicies => Rest::Parts(Part::Policy, 2),
        Shape::LockOrUnlocking => Rest::Exactly(0),
        Shape::StartAuth => Rest::Said(2),
        Shape::EndAuth => Rest::Exactly(0),
        Shape::Reset => Rest::Parts(Part::ResetElement, 2),
        Shape::CredentialAndName => Rest::Exactly(48),
        Shape::VersionList => Rest::Parts(Part::VersionEntry, 0),
        Shape::CredentialParameters => Rest::Said(6),
        Shape::PolicyAnswer => Rest::Parts(Part::Policy, 2),
        Shape::StartAuthResponse => Rest::Said(1),
        Shape::Capabilities => Rest::Parts(Part::Owner, 6),
        Shape::ProcessList => Rest::Parts(Part::ProcessInfo, 0),
        Shape::NameAlone => Rest::Exactly(48),
        Shape::PlainError => Rest::Exactly(0),
        Shape::UnsupportedRequest => Rest::Exactly(0),
        Shape::Terminated => Rest::Exactly(0),
        Shape::VendorError => Rest::SaidTo(2, 31),
        Shape::VersionPiece => Rest::Exactly(0),
        Shape::ProcessPiece => Rest::Exactly(48),
        Shape::OwnerPiece => Rest::Said(1),
        Shape::PolicyPiece => Rest::Said(1),
        Shape::ResetPiece => Rest::Said(0),
    }
}
