// The laws of the detector.

ghost use Rattle.detector_laws.specs.Laws as law;

/// The token of a number is one of the open tokens.
pub fn numbered_is_open()
    ensures { law.NumberedIsOpen }
{}

/// Hearing a note keeps what kept reports and notes tell of actors true.
pub fn hear_keeps_reports()
    ensures { law.HearKeepsReports }
{}

/// So do a block, the take of a Confirm, and an actor's other events.
pub fn actors_keep_reports()
    ensures block { law.BlockKeepsReports }
    ensures confirm { law.ConfirmKeepsReports }
    ensures moves { law.MovesKeepReports }
{}

/// These events keep each open token sealed or spoiled.
pub fn actors_keep_tokens()
    ensures block { law.BlockKeepsTokens }
    ensures confirm { law.ConfirmKeepsTokens }
    ensures moves { law.MovesKeepTokens }
    ensures hear { law.HearKeepsTokens }
{}

/// A scan opens a token that is sealed or spoiled, and keeps the others so.
pub fn scan_keeps()
    ensures reports { law.ScanKeepsReports }
    ensures tokens { law.ScanKeepsTokens }
{}

/// A reap takes a token, and keeps the others sealed or spoiled.
pub fn reap_keeps()
    ensures reports { law.ReapKeepsReports }
    ensures tokens { law.ReapKeepsTokens }
{}

/// The detector forgets no closed set, and keeps its reports in order.
pub fn detector_keeps()
    ensures hear_news { law.HearKeepsNoNews }
    ensures scan_news { law.ScanLeavesNoSet }
    ensures reap_news { law.ReapKeepsNoNews }
    ensures hear_order { law.HearKeepsOrder }
    ensures reap_order { law.ReapKeepsOrder }
{}

/// All that holds of the detector holds where a run starts.
pub fn start_has_facts()
    ensures { law.StartHasFacts }
{}

/// Each event keeps all that holds of the detector, where the counts balance before it.
pub fn steps_keep()
    ensures { law.StepsKeepFacts }
{}

/// So does each run.
pub fn runs_keep()
    ensures { law.RunsKeepFacts }
{}

/// Where no event is enabled, each actor that is present is reached.
pub fn quiet_is_exact()
    ensures { law.QuietIsExact }
{}

/// So it is where a run ends.
pub fn exact_at_quiet()
    ensures { law.ExactAtQuiet }
{}

/// No actor that a reap takes is needed.
pub fn reaps_the_unneeded()
    ensures { law.ReapsTheUnneeded }
{}

/// A token that all its members acknowledged, so that its reap is enabled, is sealed; and no letter
/// waits for a member.
pub fn acked_is_sealed()
    ensures sealed { law.AckedIsSealed }
    ensures bare { law.AckedIsBare }
{}

/// Members alone acknowledge: of a token that is open, whoever's acknowledgement the detector hears is
/// a member.
pub fn members_alone_acknowledge()
    ensures { law.MembersAloneAcknowledge }
{}
