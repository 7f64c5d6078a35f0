ghost use Rattle.coding.specs.Base64Laws.{Base64Law};
ghost use Rattle.coding.specs.QuotedLaws.{QuotedLaw};

/// The laws of base64 hold.
pub fn base64_laws()
    ensures { Base64Law }
{}

/// The laws of quoted-printable hold.
pub fn quoted_laws()
    ensures { QuotedLaw }
{}
