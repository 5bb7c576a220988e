// Laws of the text's readers: the bytes from a place on, the array that what is read goes to, and what the readers answer. No code.
#![tactic(auto)]
