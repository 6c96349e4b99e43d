// Laws of the definitions alone: each function has an empty body, and its contract is the law.

ghost use Rattle.bound_cert.specs.Laws.{CertificatesAreReadByLines, SyntaxFaultsHaveOneLine};

/// Reading line by line gives just the certificates of a text, and stops at the first bad line of
/// every other one.
pub fn certificates_are_read_by_lines()
    ensures { CertificatesAreReadByLines }
{}

/// Bytes that are no certificate's text have one first bad line.
pub fn syntax_faults_have_one_line()
    ensures { SyntaxFaultsHaveOneLine }
{}
