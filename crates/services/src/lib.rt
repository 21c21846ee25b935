// The services and the listing as definitions: from input bytes, numbers and the lengths of all lent slices to the reply and the
// whole content of every lent slice afterwards. In specs/; there is no code here.
#![tactic(auto)]
