// Laws of what is printed: each function has an empty body, and its contract is the law.

ghost use Rattle.flexplan.specs.Accepted.{CertificatesAreAccepted, PlainZonesAreOne};
ghost use Rattle.flexplan.specs.Pieces.{AnswersComeInPieces};

/// The texts of the answers to two pieces of a query file, one after the other, are a text of those to the whole file.
pub fn answers_come_in_pieces()
    ensures { AnswersComeInPieces }
{}

/// What `certify` prints is accepted by `check` over the same files, wherever both read one zone.
pub fn certificates_are_accepted()
    ensures { CertificatesAreAccepted }
{}

/// One zone alone is read of a times folder whose `zone.txt` has the text `UTC0`, or is absent.
pub fn plain_zones_are_one()
    ensures { PlainZonesAreOne }
{}
