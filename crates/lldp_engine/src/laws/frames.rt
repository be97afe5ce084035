//! The octets of the frames that are sent.
ghost use Rattle.std.specs.Prelude.{◌≡◌, ℕ, List};
ghost use Rattle.lldp_transmit.specs.declared.event.Mark.TheVariants.{Ordinary, Shutdown};
ghost use Rattle.lldp_engine.specs.Configuration.{Configuration};
ghost use Rattle.lldp_engine.specs.Frames.{frame_of};
ghost use Rattle.lldp_engine.specs.Laws.FrameOctets.{HasLengths, ordinary_octets, shutdown_octets};

/// Frames have exactly these octets, for every configuration and every port name with lengths that
/// an agent allows.
#[tactic(auto, using(crate::proofs::ForLaws::FrameOctets::frames_have_these_octets))]
pub fn frames_have_these_octets()
    ensures ordinary { (configuration : Configuration) (name : List ℕ) →
        HasLengths configuration name →
        frame_of configuration name Ordinary ≡ ordinary_octets configuration name }
    ensures shutdown { (configuration : Configuration) (name : List ℕ) →
        HasLengths configuration name →
        frame_of configuration name Shutdown ≡ shutdown_octets configuration name }
{}
