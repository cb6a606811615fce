//! Laws of the checker: public functions that do nothing, each with the law as its contract.
ghost use Rattle.evidence_check.specs.Bundles.{OneBundleVerdict};
ghost use Rattle.evidence_check.specs.Claims.{ShowsTruth};
ghost use Rattle.evidence_check.specs.Refusals.{OneVerdict, SupportedOrRefused};
ghost use Rattle.evidence_check.specs.Supported.{IsSupported};
ghost use Rattle.evidence_format.specs.Evidence.{PlainEvidence};
ghost use Rattle.net_core.specs.Nets.{PlainNet};

/// Evidence is not both supported and refused, and is refused for one reason at most.
pub fn one_verdict()
    ensures { OneVerdict }
{}

/// What supported evidence shows is true, whoever made it.
pub fn supported_is_true()
    ensures { (net : PlainNet) (e : PlainEvidence) → IsSupported net e → ShowsTruth net e }
{}

/// Whatever the net is, well-formed evidence is supported or refused.
pub fn supported_or_refused()
    ensures { (net : PlainNet) (e : PlainEvidence) → SupportedOrRefused net e }
{}

/// Several well-formed claims are all supported, or one of them is the first whose evidence is refused, for one reason, and
/// not both.
pub fn one_bundle_verdict()
    ensures { OneBundleVerdict }
{}
