// Which field stands at which place of a message, and of a piece of a list.
#![tactic(auto, unfolding(message_formats::specs::Formats::fields_of, message_formats::specs::Formats::contents_of))]

ghost use Rattle.std.specs.Prelude.{◌≡◌, get_or};
ghost use Rattle.message_formats.specs.declared.Field.TheVariants.{Unused};
ghost use Rattle.message_formats.specs.Formats.{fields_of};

use message_formats::{Field, Shape};

// The fields of a shape, in their order. Kept out of the loops over them, which then look a shape up once and not for each field.
#[inline(never)]
fn fields_of(shape: Shape) -> &'static [Field]
    ensures { result.now ≡ fields_of shape }
{
    match shape {
        Shape::NoMessage => &[],
        Shape::Plain => &[],
        Shape::VersionNumber => &[Field::AuthVersion],
        Shape::OneCredential => &[Field::CredentialID],
        Shape::ChangeCredential => &[
            Field::Change,
            Field::CredentialID,
            Field::CredentialType,
            Field::BaseAsymAlgo,
            Field::BaseHashAlgo,
            Field::Reserved,
            Field::CredentialDataSize,
        ],
        Shape::ChangePolicies => &[Field::Change, Field::CredentialID, Field::NumPolicies],
        Shape::LockOrUnlocking => &[Field::LockOrUnlock, Field::CredentialID],
        Shape::StartAuth => &[Field::CredentialID, Field::StartAttributes, Field::NonceLen],
        Shape::EndAuth => &[Field::CredentialID, Field::EndAttributes],
        Shape::Reset => &[
            Field::DataType,
            Field::CredentialID,
            Field::SVResetDataTypeCount,
        ],
        Shape::CredentialAndName => &[Field::CredentialID],
        Shape::VersionList => &[Field::VersionNumberEntryCount],
        Shape::CredentialParameters => &[
            Field::CredAttributes,
            Field::CredentialID,
            Field::CredentialType,
            Field::BaseAsymAlgo,
            Field::BaseHashAlgo,
            Field::Reserved,
            Field::CredentialDataSize,
        ],
        Shape::PolicyAnswer => &[
            Field::CredAttributes,
            Field::CredentialID,
            Field::NumPolicies,
        ],
        Shape::StartAuthResponse => &[Field::CredentialID, Field::NonceLen],
        Shape::Capabilities => &[
            Field::MessageCaps,
            Field::AuthProcessCaps,
            Field::DeviceProvisioningState,
            Field::AuthRecordProcessTime,
            Field::BaseAsymAlgoSupported,
            Field::BaseHashAlgoSupported,
            Field::SupportedPolicyOwnerIDCount,
        ],
        Shape::ProcessList => &[Field::AuthProcInfoCount],
        Shape::NameAlone => &[],
        Shape::PlainError => &[Field::ErrorCode, Field::NoErrorData],
        Shape::UnsupportedRequest => &[Field::ErrorCode, Field::ErrorData],
        Shape::Terminated => &[Field::ErrorCode, Field::NoErrorData, Field::CredentialID],
        Shape::VendorError => &[Field::ErrorCode, Field::ErrorData, Field::VendorIDLen],
        Shape::VersionPiece => &[Field::VersionNumberEntry],
        Shape::ProcessPiece => &[Field::CredentialID, Field::AuthProcessType],
        Shape::OwnerPiece => &[Field::RegistryID, Field::VendorIDLen],
        Shape::PolicyPiece => &[Field::PolicyVersion, Field::PolicyLen],
        Shape::ResetPiece => &[Field::SVResetDataTypeLen],
    }
}

// The field at a place of a shape.
pub fn field_of(shape: Shape, at: usize) -> Field
    ensures { result ≡ get_or (fields_of shape) at Unused }
{
    fields_of(shape).get(at).copied().unwrap_or(Field::Unused)
}
