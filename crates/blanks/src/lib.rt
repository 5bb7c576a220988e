// The laws of texts as sent, with blanks between their signs. No code.
#![tactic(auto)]
