//! The stages that a request names (RFC 7143 §6.3, §11.12.3).

ghost use Rattle.std.specs.Prelude.{◌≡◌};
ghost use Rattle.iscsi_login.specs.Rules.{is_same_stage as is_same, is_login_stage as is_stage_of_login, is_behind as comes_behind};
ghost use Rattle.iscsi_login.specs.Login.{is_operational as is_operational_of, is_last_step as is_last, stage_after as stage_behind};

use iscsi_pdu::{Header, LoginStep, Stage};

/// Returns whether both stages are given, and are the same.
pub(crate) fn is_same_stage(stage: Option<Stage>, other: Option<Stage>) -> bool
    ensures { result ≡ is_same stage other }
{
    match (stage, other) {
        (Some(stage), Some(other)) => stage.number() == other.number(),
        _ => false,
    }
}

/// Returns whether the stage is one of a login.
pub(crate) fn is_login_stage(stage: Option<Stage>) -> bool
    ensures { result ≡ is_stage_of_login stage }
{
    match stage {
        Some(stage) => stage.number() != Stage::FullFeaturePhase.number(),
        None => false,
    }
}

/// Returns whether the first stage comes after the second.
pub(crate) fn is_behind(stage: Option<Stage>, other: Option<Stage>) -> bool
    ensures { result ≡ comes_behind stage other }
{
    match (stage, other) {
        (Some(stage), Some(other)) => other.number() < stage.number(),
        _ => false,
    }
}

/// Returns whether the request is in operational negotiation.
pub(crate) fn is_operational(header: &Header) -> bool
    ensures { result ≡ is_operational_of header.now }
{
    is_same_stage(header.current_stage(), Some(Stage::OperationalNegotiation))
}

/// Returns whether full feature phase is next.
pub(crate) fn is_last_step(step: LoginStep) -> bool
    ensures { result ≡ is_last step }
{
    matches!(step, LoginStep::Enters(Stage::FullFeaturePhase))
}

/// Returns the stage after a step.
pub(crate) fn stage_after(stage: Option<Stage>, step: LoginStep) -> Option<Stage>
    ensures { result ≡ stage_behind stage step }
{
    match step {
        LoginStep::Enters(next) => Some(next),
        LoginStep::Continued | LoginStep::Stays => stage,
    }
}
