// Full-width signs and markers (02, S-3): what the call was before wide characters counted as ASCII, and theorems that compare the two. No code: the comparison
// itself is a definition of `numbers`, the code that makes it stands in `markers`.
#![tactic(auto)]
