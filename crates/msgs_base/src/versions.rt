// The versions of the calls that have several.
ghost use Rattle.std.specs.Prelude.{◌≡◌};
ghost use Rattle.msgs_base.specs.Versions.{api_versions_version, metadata_version, produce_version};

use flex_fields::Version;

/// The first flexible version of each call.
const FLEXIBLE_API_VERSIONS: u16 = 3;

const FLEXIBLE_METADATA: u16 = 9;

const FLEXIBLE_PRODUCE: u16 = 9;

/// The version of ApiVersions that has this number.
pub fn api_versions_version(number: u16) -> Version
    ensures { result ≡ api_versions_version number }
{
    Version {
        number,
        flexible: FLEXIBLE_API_VERSIONS <= number,
    }
}

/// The version of Metadata that has this number.
pub fn metadata_version(number: u16) -> Version
    ensures { result ≡ metadata_version number }
{
    Version {
        number,
        flexible: FLEXIBLE_METADATA <= number,
    }
}

/// The version of Produce that has this number.
pub fn produce_version(number: u16) -> Version
    ensures { result ≡ produce_version number }
{
    Version {
        number,
        flexible: FLEXIBLE_PRODUCE <= number,
    }
}
